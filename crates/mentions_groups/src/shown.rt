//! Names as they are shown, and whose they are.
ghost use Rattle.std.specs.Prelude.{◌≡◌, ◌++◌, IfOk, OnOk, option_map, slice_get};
ghost use Rattle.std.specs.Option.{option_to_list};
ghost use Rattle.value_trees.specs.ChildView.{child_view};
ghost use Rattle.mentions_groups.specs.Shown.{child_persons, person_at, persons_in, shown_in, shown_names, variables_of};

use std::alloc::{AllocError, Global};
use value_lists::seq::Seq;
use value_lists::text::Text;
use value_sources::entry::Person;
use value_sources::taxonomy::NameVariable;
use value_trees::elem::{Elem, ElemChild, ElemChildren, ElemMeta};

/// Names as they are shown.
#[derive(PartialEq, Eq, PartialOrd, Ord, Hash, Drop)]
pub struct ShownNames {
    /// How they read.
    pub text: Text,
    /// Whose they are, as far as names are shown, in order.
    pub persons: Seq<Person>,
}

/// The first names of a tree, as they are shown: how they read, and the persons of the names in
/// them. None where the tree has none.
///
/// # Errors
///
/// Where memory is refused.
pub fn shown_names(alloc: Global, tree: &ElemChildren) -> Result<Option<ShownNames>, AllocError>
    ensures { IfOk result (λ s. s ≡ shown_names tree.now) }
{
    match tree.find_names() {
        Some(names) => Ok(Some(shown_in(alloc, names)?)),
        None => Ok(None),
    }
}

/// A names element, as it is shown.
fn shown_in(alloc: Global, names: &Elem) -> Result<ShownNames, AllocError>
    ensures { IfOk result (λ s. s ≡ shown_in names.now) }
{
    let mut text = String::new(alloc);
    names.children.write_plain(&mut text)?;
    let mut persons = Vec::new(alloc);
    add_persons(&mut persons, variables_of(names), &names.children)?;
    Ok(ShownNames {
        text: Text::new(text),
        persons: Seq::new(persons),
    })
}

/// The variables that an element was rendered for, with their persons, if it stands for names.
fn variables_of(elem: &Elem) -> &[(Seq<Person>, NameVariable)]
    ensures { result.now ≡ variables_of elem.now.meta }
{
    match &elem.meta {
        Some(ElemMeta::Names(variables)) => variables.as_slice(),
        _ => &[],
    }
}

/// Adds the persons of the names in a tree.
#[cycle(names)]
fn add_persons(
    persons: &mut Vec<Person>,
    variables: &[(Seq<Person>, NameVariable)],
    tree: &ElemChildren,
) -> Result<(), AllocError>
    ensures { OnOk result (persons.new.items
        ≡ persons.old.items ++ persons_in variables.now tree.now) }
{
    for child in &tree.0 {
        add_persons_of(persons, variables, child)?;
    }
    Ok(())
}

/// Adds the person of a name, or those of the names in a child.
#[cycle(names)]
fn add_persons_of(
    persons: &mut Vec<Person>,
    variables: &[(Seq<Person>, NameVariable)],
    child: &ElemChild,
) -> Result<(), AllocError>
    ensures { OnOk result (persons.new.items
        ≡ persons.old.items ++ child_persons variables.now (child_view child.now)) }
{
    match child {
        ElemChild::Elem(elem) => match &elem.meta {
            Some(ElemMeta::Name(variable, place)) => {
                add_person(persons, variables, *variable, *place)
            }
            _ => add_persons(persons, variables, &elem.children),
        },
        ElemChild::Text(_) => Ok(()),
        ElemChild::Markup(_) => Ok(()),
        ElemChild::Link { .. } => Ok(()),
        ElemChild::Transparent { .. } => Ok(()),
    }
}

/// Adds the person at a place of a variable, if there is one.
fn add_person(
    persons: &mut Vec<Person>,
    variables: &[(Seq<Person>, NameVariable)],
    variable: NameVariable,
    place: usize,
) -> Result<(), AllocError>
    ensures { OnOk result (persons.new.items
        ≡ persons.old.items ++ option_to_list (person_at variables.now variable place)) }
{
    if let Some(person) = person_at(variables, variable, place) {
        persons.push(copied(person)?)?;
    }
    Ok(())
}

fn copied(person: &Person) -> Result<Person, AllocError>
    ensures { IfOk result (λ p. p ≡ person.now) }
{
    person.clone()
}

/// The person at a place of a variable, if there is one.
fn person_at(
    variables: &[(Seq<Person>, NameVariable)],
    variable: NameVariable,
    place: usize,
) -> Option<&Person>
    ensures { option_map (λ p. p.now) result ≡ person_at variables.now variable place }
{
    for pair in variables {
        if pair.1 == variable {
            return nth(pair.0.as_slice(), place);
        }
    }
    None
}

fn nth(persons: &[Person], place: usize) -> Option<&Person>
    ensures { option_map (λ p. p.now) result ≡ slice_get persons.now place }
{
    persons.get(place)
}

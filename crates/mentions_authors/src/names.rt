//! The names of an item.
ghost use Rattle.std.specs.Prelude.{◌≡◌, ◌∷◌, ◌++◌, [], IfOk, OnOk};
ghost use Rattle.value_trees.specs.ChildView.{child_view};
ghost use Rattle.value_trees.specs.Tree.{plain};
ghost use Rattle.mentions_authors.specs.Names.{
  child_names,
  is_name,
  names_in,
  names_of,
  names_within,
  persons_of,
  variables_of,
};

use crate::repeated::ItemNames;
use std::alloc::{AllocError, Global};
use value_lists::seq::Seq;
use value_lists::text::Text;
use value_sources::entry::Person;
use value_sources::taxonomy::NameVariable;
use value_trees::elem::{Elem, ElemChild, ElemChildren, ElemMeta};

/// The names in the first names element of an item, how each reads, and the persons of all
/// variables that the element was written for; none where the item has no names element.
///
/// # Errors
///
/// Where memory is refused.
pub(crate) fn names_of(
    alloc: Global,
    tree: &ElemChildren,
) -> Result<Option<ItemNames<Text, Seq<Seq<Person>>>>, AllocError>
    ensures { IfOk result (λ names. names ≡ names_of tree.now) }
{
    match tree.find_names() {
        Some(elem) => Ok(Some(names_in(alloc, elem)?)),
        None => Ok(None),
    }
}

/// The names in a names element, and its persons.
fn names_in(alloc: Global, elem: &Elem) -> Result<ItemNames<Text, Seq<Seq<Person>>>, AllocError>
    ensures { IfOk result (λ names. names ≡ names_in elem.now) }
{
    let mut names = Vec::new(alloc);
    add_names(alloc, &mut names, &elem.children)?;
    Ok(ItemNames {
        names: Seq::new(names),
        persons: persons_of(alloc, variables_of(elem))?,
    })
}

/// The variables that an element was written for, with their persons, if it stands for names.
fn variables_of(elem: &Elem) -> &[(Seq<Person>, NameVariable)]
    ensures { result.now ≡ variables_of elem.now.meta }
{
    match &elem.meta {
        Some(ElemMeta::Names(variables)) => variables.as_slice(),
        _ => &[],
    }
}

/// The persons of each variable.
fn persons_of(
    alloc: Global,
    variables: &[(Seq<Person>, NameVariable)],
) -> Result<Seq<Seq<Person>>, AllocError>
    ensures { IfOk result (λ persons. persons ≡ persons_of variables.now) }
{
    let mut persons = Vec::with_capacity(alloc, variables.len())?;
    for variable in variables {
        persons.push(copied(&variable.0)?)?;
    }
    Ok(Seq::new(persons))
}

fn copied(persons: &Seq<Person>) -> Result<Seq<Person>, AllocError>
    ensures { IfOk result (λ copy. copy ≡ persons.now) }
{
    persons.clone()
}

/// Whether the element stands for a name.
pub(crate) fn is_name(elem: &Elem) -> bool
    ensures { result ≡ is_name elem.now.meta }
{
    matches!(elem.meta, Some(ElemMeta::Name(_, _)))
}

/// Adds how each name in a tree reads.
#[cycle(names)]
fn add_names(alloc: Global, names: &mut Vec<Text>, tree: &ElemChildren) -> Result<(), AllocError>
    ensures { OnOk result (names.new.items ≡ names.old.items ++ names_within tree.now) }
{
    for child in &tree.0 {
        add_names_of(alloc, names, child)?;
    }
    Ok(())
}

/// Adds how a name reads, or each name in a child.
#[cycle(names)]
fn add_names_of(alloc: Global, names: &mut Vec<Text>, child: &ElemChild) -> Result<(), AllocError>
    ensures { OnOk result
        (names.new.items ≡ names.old.items ++ child_names (child_view child.now)) }
{
    match child {
        ElemChild::Elem(elem) => {
            if is_name(elem) {
                add_name(alloc, names, &elem.children)
            } else {
                add_names(alloc, names, &elem.children)
            }
        }
        ElemChild::Text(_) => Ok(()),
        ElemChild::Markup(_) => Ok(()),
        ElemChild::Link { .. } => Ok(()),
        ElemChild::Transparent { .. } => Ok(()),
    }
}

/// Adds how a name reads that has these children.
fn add_name(alloc: Global, names: &mut Vec<Text>, tree: &ElemChildren) -> Result<(), AllocError>
    ensures { OnOk result (names.new.items ≡ names.old.items ++ plain tree.now ∷ []) }
{
    let mut text = String::new(alloc);
    tree.write_plain(&mut text)?;
    names.push(Text::new(text))?;
    Ok(())
}

//! What was written of a mention.
ghost use Rattle.std.specs.Prelude.{◌≡◌, IfOk, map};
ghost use Rattle.std.specs.List.{zip};
ghost use Rattle.mentions_groups.specs.Written.{first_persons, named_as, named_by, names_of, written_of};

use mentions_names::mention::MentionedName;
use std::alloc::{AllocError, Global};
use value_lists::seq::Seq;
use value_lists::text::Text;
use value_sources::entry::Person;
use value_sources::names::{DisambiguatedNameForm, NameDisambiguationProperties};
use value_trees::elem::{Elem, ElemChildren, ElemMeta};

/// What is read of a mention that was written.
#[derive(Drop)]
pub struct Written {
    /// Its plain text.
    pub text: Text,
    /// Its names that may be made fuller: of the persons of the first variable of its first
    /// names, each with the form in which it was written; as many as have both.
    pub names: Seq<MentionedName>,
    /// Whether a condition `disambiguate` was tested.
    pub tested: bool,
}

/// The persons of the first variable that an element was rendered for, if it stands for names.
fn named_by(elem: &Elem) -> &[Person]
    ensures { result.now ≡ named_by elem.now.meta }
{
    match &elem.meta {
        Some(ElemMeta::Names(variables)) => match variables.as_slice().first() {
            Some(variable) => variable.0.as_slice(),
            None => &[],
        },
        _ => &[],
    }
}

/// The persons of the first variable of the first names of a tree.
fn first_persons(tree: &ElemChildren) -> &[Person]
    ensures { result.now ≡ first_persons tree.now }
{
    match tree.find_names() {
        Some(names) => named_by(names),
        None => &[],
    }
}

/// Its names that may be made fuller.
fn names_of(
    alloc: Global,
    persons: &[Person],
    first_name: &Option<NameDisambiguationProperties>,
) -> Result<Vec<MentionedName>, AllocError>
    ensures { IfOk result (λ v. v.items ≡ names_of persons.now first_name.now) }
{
    match first_name {
        Some(own) => names_in(alloc, persons, own.forms.as_slice()),
        None => Ok(Vec::new(alloc)),
    }
}

/// Persons with the forms in which they were written, as many as have both.
fn names_in(
    alloc: Global,
    persons: &[Person],
    forms: &[DisambiguatedNameForm],
) -> Result<Vec<MentionedName>, AllocError>
    ensures { IfOk result (λ v. v.items ≡ map named_as (zip persons.now forms.now)) }
{
    let count = persons.len().min(forms.len());
    let mut names = Vec::with_capacity(alloc, count)?;
    for k in 0..count {
        names.push(MentionedName {
            person: copied(&persons[k])?,
            own: forms[k],
        })?;
    }
    Ok(names)
}

fn copied(person: &Person) -> Result<Person, AllocError>
    ensures { IfOk result (λ p. p ≡ person.now) }
{
    person.clone()
}

/// What is read of a cite that was written for a mention: its tree, the forms of its first names,
/// and whether a condition `disambiguate` was tested.
///
/// # Errors
///
/// Where memory is refused.
pub fn written_of(
    alloc: Global,
    tree: &ElemChildren,
    first_name: &Option<NameDisambiguationProperties>,
    tested: bool,
) -> Result<Written, AllocError>
    ensures { IfOk result (λ w. w ≡ written_of tree.now first_name.now tested) }
{
    let mut text = String::new(alloc);
    tree.write_plain(&mut text)?;
    let names = names_of(alloc, first_persons(tree), first_name)?;
    Ok(Written {
        text: Text::new(text),
        names: Seq::new(names),
        tested,
    })
}

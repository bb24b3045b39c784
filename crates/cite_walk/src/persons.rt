//! The persons whose names are written.
use cite_names::others::told_names;
use cite_names::person::person_of;
use cite_names::shown::ShownNames;
use csl_base::entry::Person;
use csl_base::seq::Seq;
use csl_base::text::Text;
use reference_values::name::Name;
use std::alloc::{AllocError, Global};

/// The persons of these names.
///
/// # Errors
///
/// Where memory is refused.
pub(crate) fn persons_of(alloc: Global, names: &[Name]) -> Result<Seq<Person>, AllocError> {
    let mut persons = Vec::with_capacity(alloc, names.len())?;
    add_persons(alloc, &mut persons, names)?;
    Ok(Seq::new(persons))
}

/// The persons of the names that are shown, and a nameless one in place of those that aren't.
///
/// # Errors
///
/// Where memory is refused.
pub(crate) fn shown_persons(
    alloc: Global,
    names: &[Name],
    shown: ShownNames,
) -> Result<Seq<Person>, AllocError> {
    let told = told_names(names);
    let first = shown.first_names(told.len()).min(told.len());
    let mut persons = Vec::new(alloc);
    add_persons(alloc, &mut persons, told.get(..first).unwrap_or(told))?;
    if shown != ShownNames::All {
        persons.push(Person {
            name: Text::copied(alloc, "")?,
            given_name: None,
        })?;
    }
    if let (ShownNames::FirstAndLast(_), Some(last)) = (shown, told.last()) {
        persons.push(person_of(alloc, last)?)?;
    }
    Ok(Seq::new(persons))
}

fn add_persons(alloc: Global, persons: &mut Vec<Person>, names: &[Name]) -> Result<(), AllocError> {
    for name in names {
        persons.push(person_of(alloc, name)?)?;
    }
    Ok(())
}

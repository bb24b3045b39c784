//! Persons, as the driver distinguishes them.
use crate::parts::joined;
use csl_base::entry::Person;
use csl_base::text::Text;
use reference_values::name::{Name, PersonName};
use std::alloc::{AllocError, Global};

/// The person of a name: what is written where the name is short, and the rest.
///
/// # Errors
///
/// Where memory is refused.
pub fn person_of(alloc: Global, name: &Name) -> Result<Person, AllocError> {
    match name {
        Name::Person(person) => Ok(Person {
            name: Text::new(short_name(alloc, person)?),
            given_name: given_name(alloc, person)?.map(Text::new),
        }),
        Name::Literal(text) => Ok(Person {
            name: Text::copied(alloc, text.as_str())?,
            given_name: None,
        }),
    }
}

/// The family name with its particle; the given name where there is none.
fn short_name(alloc: Global, person: &PersonName) -> Result<String, AllocError> {
    match &person.family {
        Some(family) => joined(
            alloc,
            person.non_dropping_particle.as_deref(),
            Some(family.as_str()),
        ),
        None => joined(alloc, person.given.as_deref(), None),
    }
}

/// The given name, the particle that goes with it, and the suffix.
fn given_name(alloc: Global, person: &PersonName) -> Result<Option<String>, AllocError> {
    if person.family.is_none() {
        return Ok(None);
    }
    let mut text = joined(
        alloc,
        person.given.as_deref(),
        person.dropping_particle.as_deref(),
    )?;
    if let Some(suffix) = &person.suffix {
        text.push_str(", ")?;
        text.push_str(suffix.as_str())?;
    }
    if text.is_empty() {
        Ok(None)
    } else {
        Ok(Some(text))
    }
}

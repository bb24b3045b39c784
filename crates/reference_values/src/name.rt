//! Names.
use crate::particles::{leading_particle, quoted, suffix_of, trailing_particle};
use std::alloc::{AllocError, Global};

/// A name of a name variable.
#[derive(Clone, PartialEq, Eq, Drop)]
pub enum Name {
    Person(PersonName),
    /// A name that is written as it stands, as that of an institution.
    Literal(String),
}

/// The parts of a person's name. None is empty. There is a family name or a given name.
#[derive(Clone, PartialEq, Eq, Drop)]
pub struct PersonName {
    pub family: Option<String>,
    pub given: Option<String>,
    /// A particle that goes with the given name, or is left out where the family name stands alone,
    /// as `de` in `Alfred de Musset`.
    pub dropping_particle: Option<String>,
    /// A particle that goes with the family name, as `van` in `Vincent van Gogh`.
    pub non_dropping_particle: Option<String>,
    pub suffix: Option<String>,
    /// Whether a comma stands before the suffix.
    pub has_comma_suffix: bool,
    /// Whether the family name stands first in any order.
    pub has_static_ordering: bool,
}

impl PersonName {
    /// Takes the suffix behind a comma out of the given name, as in `John, Jr.`. If an exclamation
    /// mark stands right behind the comma, a comma is to stand before the suffix. A given name in
    /// double quotes is kept as it is.
    ///
    /// # Errors
    /// Where memory is refused; the name may then lack its suffix.
    pub fn take_suffix(&mut self, alloc: Global) -> Result<(), AllocError> {
        let Some(given) = &self.given else {
            return Ok(());
        };
        if quoted(given.as_str()).is_some() {
            return Ok(());
        }
        let Some(parts) = suffix_of(given.as_str()) else {
            return Ok(());
        };
        let suffix = non_empty(alloc, parts.suffix)?;
        let has_comma_suffix = self.has_comma_suffix || parts.has_comma_suffix;
        self.given = non_empty(alloc, parts.given)?;
        self.suffix = suffix;
        self.has_comma_suffix = has_comma_suffix;
        Ok(())
    }

    /// Takes the particle behind the given name for a dropping one, as in `Alfred de`. A given name
    /// in double quotes is kept as it is.
    ///
    /// # Errors
    /// Where memory is refused; the name is then unchanged.
    pub fn take_dropping_particle(&mut self, alloc: Global) -> Result<(), AllocError> {
        let Some(given) = &self.given else {
            return Ok(());
        };
        if quoted(given.as_str()).is_some() {
            return Ok(());
        }
        if let Some(parts) = trailing_particle(alloc, given.as_str())? {
            self.given = Some(parts.name);
            self.dropping_particle = Some(parts.particle);
        }
        Ok(())
    }

    /// Takes the particle in front of the family name for a non-dropping one, as in `van Gogh`. A
    /// family name in double quotes is kept as it is.
    ///
    /// # Errors
    /// Where memory is refused; the name is then unchanged.
    pub fn take_non_dropping_particle(&mut self, alloc: Global) -> Result<(), AllocError> {
        let Some(family) = &self.family else {
            return Ok(());
        };
        if quoted(family.as_str()).is_some() {
            return Ok(());
        }
        if let Some(parts) = leading_particle(alloc, family.as_str())? {
            self.family = Some(parts.name);
            self.non_dropping_particle = Some(parts.particle);
        }
        Ok(())
    }

    /// Removes the double quotes around the family name and around the given name.
    ///
    /// # Errors
    /// Where memory is refused; one of them may then have its quotes.
    pub fn remove_quotes(&mut self, alloc: Global) -> Result<(), AllocError> {
        remove_quotes(alloc, &mut self.family)?;
        remove_quotes(alloc, &mut self.given)
    }
}

/// Removes the double quotes around a part of a name.
fn remove_quotes(alloc: Global, part: &mut Option<String>) -> Result<(), AllocError> {
    if let Some(inner) = part.as_ref().and_then(|name| quoted(name.as_str())) {
        *part = non_empty(alloc, inner)?;
    }
    Ok(())
}

/// The text, if it is not empty.
fn non_empty(alloc: Global, text: &str) -> Result<Option<String>, AllocError> {
    if text.is_empty() {
        return Ok(None);
    }
    Ok(Some(String::from_str(alloc, text)?))
}

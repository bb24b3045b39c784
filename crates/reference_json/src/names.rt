//! Names of an item.
ghost use Rattle.serde_json.specs.Data.{array};
ghost use Rattle.serde_json.specs.View.{items_view, view};
ghost use Rattle.reference_json.specs.Faults.{Faults};

use crate::fault::{ReferencesError, Wanted};
use crate::place::Place;
use crate::reader::{Reader, refusal};
use crate::warning::WarningKind;
use reference_values::name::{Name, PersonName};
use serde_json::Value;
use std::alloc::{AllocError, Global};

/// The keys of a name.
pub(crate) const NAME_KEYS: &[&str] = &[
    "comma-suffix",
    "dropping-particle",
    "family",
    "given",
    "literal",
    "non-dropping-particle",
    "parse-names",
    "static-ordering",
    "suffix",
];

/// Takes the parts that have no keys of their own out of the family name and the given name. A
/// given name that stands alone stays whole.
fn take_parts(alloc: Global, person: &mut PersonName, object: &Value) -> Result<(), AllocError> {
    if person.family.is_none() {
        return person.remove_quotes(alloc);
    }
    if object.get("suffix").is_none() {
        person.take_suffix(alloc)?;
    }
    if object.get("dropping-particle").is_none() {
        person.take_dropping_particle(alloc)?;
    }
    if object.get("non-dropping-particle").is_none() {
        person.take_non_dropping_particle(alloc)?;
    }
    person.remove_quotes(alloc)
}

/// The name that a note gives, as `Family || Given`, or else as it stands.
///
/// # Errors
/// Where memory is refused.
pub(crate) fn name_in_note(alloc: Global, text: &str) -> Result<Name, AllocError> {
    let Some((family, given)) = text.split_once("||") else {
        return Ok(Name::Literal(String::from_str(alloc, text)?));
    };
    let mut person = PersonName {
        family: part_of(alloc, family)?,
        given: part_of(alloc, given)?,
        dropping_particle: None,
        non_dropping_particle: None,
        suffix: None,
        has_comma_suffix: false,
        has_static_ordering: false,
    };
    if person.family.is_none() && person.given.is_none() {
        return Ok(Name::Literal(String::from_str(alloc, text)?));
    }
    if person.family.is_some() {
        person.take_suffix(alloc)?;
        person.take_dropping_particle(alloc)?;
        person.take_non_dropping_particle(alloc)?;
    }
    person.remove_quotes(alloc)?;
    Ok(Name::Person(person))
}

/// A part of a name between spaces, if it is not empty.
fn part_of(alloc: Global, text: &str) -> Result<Option<String>, AllocError> {
    let text = text.trim();
    if text.is_empty() {
        return Ok(None);
    }
    Ok(Some(String::from_str(alloc, text)?))
}

impl Reader {
    /// The parts of a person's name.
    fn name_parts(&mut self, place: &Place, object: &Value) -> Result<PersonName, ReferencesError>
        ensures { Faults result place.now (view object.now) }
    {
        Ok(PersonName {
            family: self.text_at(place, object, "family")?,
            given: self.text_at(place, object, "given")?,
            dropping_particle: self.text_at(place, object, "dropping-particle")?,
            non_dropping_particle: self.text_at(place, object, "non-dropping-particle")?,
            suffix: self.text_at(place, object, "suffix")?,
            has_comma_suffix: self
                .flag_at(place, object, "comma-suffix")?
                .unwrap_or(false),
            has_static_ordering: self
                .flag_at(place, object, "static-ordering")?
                .unwrap_or(false),
        })
    }

    /// The person's name; none where it has neither a family name nor a given name.
    fn person(
        &mut self,
        place: &Place,
        object: &Value,
    ) -> Result<Option<PersonName>, ReferencesError>
        ensures { Faults result place.now (view object.now) }
    {
        let mut person = self.name_parts(place, object)?;
        if self.flag_at(place, object, "parse-names")?.unwrap_or(true) {
            take_parts(self.alloc, &mut person, object)?;
        }
        if person.family.is_none() && person.given.is_none() {
            return Ok(None);
        }
        Ok(Some(person))
    }

    /// The name that the members of an object tell; none where they tell none.
    fn name_of_members(
        &mut self,
        place: &Place,
        object: &Value,
    ) -> Result<Option<Name>, ReferencesError>
        ensures { Faults result place.now (view object.now) }
    {
        let literal = self.text_at(place, object, "literal")?;
        let person = self.person(place, object)?;
        match (literal, person) {
            (Some(literal), None) => Ok(Some(Name::Literal(literal))),
            (Some(literal), Some(_)) => {
                self.warn(place, WarningKind::PartsBesideLiteral)?;
                Ok(Some(Name::Literal(literal)))
            }
            (None, Some(person)) => Ok(Some(Name::Person(person))),
            (None, None) => {
                self.warn(place, WarningKind::EmptyName)?;
                Ok(None)
            }
        }
    }

    /// The name that a text is as it stands; none of an empty one.
    fn name_of_text(&mut self, place: &Place, text: &str) -> Result<Option<Name>, AllocError> {
        if text.is_empty() {
            self.warn(place, WarningKind::EmptyName)?;
            return Ok(None);
        }
        Ok(Some(Name::Literal(String::from_str(self.alloc, text)?)))
    }

    /// The name that the value is, an object or a text.
    fn name(&mut self, place: &Place, value: &Value) -> Result<Option<Name>, ReferencesError>
        ensures { Faults result place.now (view value.now) }
    {
        match value {
            Value::Object(members) => {
                self.warn_of_name_keys(place, members)?;
                self.name_of_members(place, value)
            }
            Value::String(text) => Ok(self.name_of_text(place, text.as_str())?),
            _ => Err(refusal(self.alloc, place, value, Wanted::Name)),
        }
    }

    /// The name at this index of a list.
    #[tactic(auto, using(crate::proofs::Parts::item_there))]
    fn name_at(
        &mut self,
        place: &Place,
        items: &[Value],
        index: usize,
    ) -> Result<Option<Name>, ReferencesError>
        ensures { Faults result place.now (array (items_view items.now)) }
    {
        match items.get(index) {
            Some(item) => self.name(&place.item(index), item),
            None => Ok(None),
        }
    }

    /// The names of a list.
    fn names_of(&mut self, place: &Place, items: &[Value]) -> Result<Vec<Name>, ReferencesError>
        ensures { Faults result place.now (array (items_view items.now)) }
    {
        let mut names = Vec::with_capacity(self.alloc, items.len())?;
        for index in 0..items.len() {
            if let Some(name) = self.name_at(place, items, index)? {
                names.push(name)?;
            }
        }
        Ok(names)
    }

    /// The names that the value is, a list; none of null.
    pub(crate) fn names(
        &mut self,
        place: &Place,
        value: &Value,
    ) -> Result<Vec<Name>, ReferencesError>
        ensures { Faults result place.now (view value.now) }
    {
        match value {
            Value::Null => Ok(Vec::new(self.alloc)),
            Value::Array(items) => self.names_of(place, items),
            _ => Err(refusal(self.alloc, place, value, Wanted::Names)),
        }
    }
}

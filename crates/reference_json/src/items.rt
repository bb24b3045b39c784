//! Items.
ghost use Rattle.serde_json.specs.View.{view};
ghost use Rattle.reference_json.specs.Faults.{Faults};

use crate::fault::{ReferencesError, Wanted};
use crate::keys::{Key, key_named};
use crate::place::Place;
use crate::reader::{Reader, lacking_id, refusal};
use crate::warning::WarningKind;
use reference_values::reference::Reference;
use serde_json::{Map, Value};
use std::alloc::AllocError;
use style_file::item_type::ItemType;
use style_file::variable::Variable;

/// How a value came to its variable.
#[derive(Clone, Copy, PartialEq, Eq)]
enum Kept {
    /// It is the only one.
    Alone,
    /// Another stood there under another name of the variable, and one of the two was left out.
    Twice,
}

/// Puts a value beside its variable. Where the variable has one already, that under its name in CSL
/// 1.0.2 stays.
fn keep<V: PartialEq + Copy, T: Drop>(
    pairs: &mut Vec<(V, T)>,
    variable: V,
    value: T,
    is_older: bool,
) -> Result<Kept, AllocError> {
    for pair in pairs.iter_mut() {
        if pair.0 == variable {
            if !is_older {
                pair.1 = value;
            }
            return Ok(Kept::Twice);
        }
    }
    pairs.push((variable, value))?;
    Ok(Kept::Alone)
}

impl Reader {
    /// Reads the value of a variable.
    fn read_variable(
        &mut self,
        place: &Place,
        value: &Value,
        variable: Variable,
        is_older: bool,
        reference: &mut Reference,
    ) -> Result<Kept, ReferencesError>
        ensures { Faults result place.now (view value.now) }
    {
        match variable {
            Variable::Text(variable) => match self.rich_text(place, value)? {
                Some(text) => Ok(keep(&mut reference.texts, variable, text, is_older)?),
                None => Ok(Kept::Alone),
            },
            Variable::Number(variable) => match self.rich_text(place, value)? {
                Some(text) => Ok(keep(&mut reference.numbers, variable, text, is_older)?),
                None => Ok(Kept::Alone),
            },
            Variable::Date(variable) => match self.date(place, value)? {
                Some(date) => Ok(keep(&mut reference.dates, variable, date, is_older)?),
                None => Ok(Kept::Alone),
            },
            Variable::Name(variable) => {
                let names = self.names(place, value)?;
                if names.is_empty() {
                    return Ok(Kept::Alone);
                }
                Ok(keep(&mut reference.names, variable, names, is_older)?)
            }
        }
    }

    /// Reads what stands under a key.
    fn read_member(
        &mut self,
        place: &Place,
        key: &str,
        value: &Value,
        reference: &mut Reference,
    ) -> Result<(), ReferencesError>
        ensures { Faults result place.now (view value.now) }
    {
        let kept = match key_named(key) {
            Some(Key::Variable(variable)) => {
                self.read_variable(place, value, variable, false, reference)?
            }
            Some(Key::Older(variable)) => {
                self.read_variable(place, value, variable, true, reference)?
            }
            Some(Key::NoVariable) => Kept::Alone,
            None => {
                let nearest = self.item_keys.guess(key)?;
                self.warn(place, WarningKind::UnknownKey { nearest })?;
                Kept::Alone
            }
        };
        if kept == Kept::Twice {
            self.warn(place, WarningKind::OlderName)?;
        }
        Ok(())
    }

    /// Reads what stands under a key of an item.
    fn read_key<'p>(
        &mut self,
        place: &'p Place,
        item: &Value,
        key: &'p str,
        reference: &mut Reference,
    ) -> Result<(), ReferencesError>
        ensures { Faults result place.now (view item.now) }
    {
        match item.get(key) {
            Some(value) => {
                let place = place.member(key);
                self.warn_of_text(&place, key, value)?;
                self.read_member(&place, key, value, reference)
            }
            None => Ok(()),
        }
    }

    /// Reads what stands under all keys of an item.
    fn read_members<'p>(
        &mut self,
        place: &'p Place,
        item: &Value,
        members: &'p Map<String, Value>,
        reference: &mut Reference,
    ) -> Result<(), ReferencesError>
        ensures { Faults result place.now (view item.now) }
    {
        for key in members.keys() {
            self.read_key(place, item, key.as_str(), reference)?;
        }
        Ok(())
    }

    /// The id of an item.
    fn id_of(&self, place: &Place, item: &Value) -> Result<String, ReferencesError>
        ensures { Faults result place.now (view item.now) }
    {
        match item.get("id") {
            None => Err(lacking_id(self.alloc, place, item)),
            Some(id) => self.id(&place.member("id"), id),
        }
    }

    /// The id that the value is.
    fn id(&self, place: &Place, value: &Value) -> Result<String, ReferencesError>
        ensures { Faults result place.now (view value.now) }
    {
        match value {
            Value::String(text) => Ok(text.clone()?),
            Value::Number(number) => Ok(self.number_text(place, number)?),
            _ => Err(refusal(self.alloc, place, value, Wanted::Id)),
        }
    }

    /// The type of an item; that of a document where it is absent or unknown.
    fn type_of(&mut self, place: &Place, item: &Value) -> Result<ItemType, ReferencesError>
        ensures { Faults result place.now (view item.now) }
    {
        let Some(name) = self.text_at(place, item, "type")? else {
            self.warn(place, WarningKind::NoType)?;
            return Ok(ItemType::Document);
        };
        match ItemType::of_name(name.as_str()) {
            Some(item_type) => Ok(item_type),
            None => {
                let nearest = self.types.guess(name.as_str())?;
                self.warn(&place.member("type"), WarningKind::UnknownType { nearest })?;
                Ok(ItemType::Document)
            }
        }
    }

    /// A reference with an id and a type, and without variables.
    fn bare_reference<'p>(
        &mut self,
        place: &'p Place,
        item: &Value,
        members: &'p Map<String, Value>,
    ) -> Result<Reference, ReferencesError>
        ensures { Faults result place.now (view item.now) }
    {
        Ok(Reference {
            id: self.id_of(place, item)?,
            item_type: self.type_of(place, item)?,
            texts: Vec::with_capacity(self.alloc, members.len())?,
            numbers: Vec::new(self.alloc),
            dates: Vec::new(self.alloc),
            names: Vec::new(self.alloc),
        })
    }

    /// The reference that the value is, an object.
    pub(crate) fn item(
        &mut self,
        place: &Place,
        value: &Value,
    ) -> Result<Reference, ReferencesError>
        ensures { Faults result place.now (view value.now) }
    {
        match value {
            Value::Object(members) => {
                let mut reference = self.bare_reference(place, value, members)?;
                self.read_members(place, value, members, &mut reference)?;
                self.take_note(place, value, &mut reference)?;
                Ok(reference)
            }
            _ => Err(refusal(self.alloc, place, value, Wanted::Item)),
        }
    }
}

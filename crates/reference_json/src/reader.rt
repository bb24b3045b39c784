//! The reader: what it refuses, and what it warns of.
ghost use Rattle.std.specs.Prelude.{◌≡◌, Some, None, IfOk, codes};
ghost use Rattle.serde_json.specs.Data.{Data};
ghost use Rattle.serde_json.specs.Find.{get};
ghost use Rattle.serde_json.specs.View.{view};
ghost use Rattle.reference_json.specs.Faults.{at_place, kind, IsErrorOf, IsFaultOf, IsFoundThere};

use crate::dates::DATE_KEYS;
use crate::fault::{Fault, Found, Pointer, ReferencesError, Wanted};
use crate::guesser::Guesser;
use crate::keys::{item_keys, type_names};
use crate::names::NAME_KEYS;
use crate::place::Place;
use crate::unkept::{NumberTexts, Unkept};
use crate::warning::{Warning, WarningKind};
use serde_json::{Map, Number, Value};
use std::alloc::{AllocError, Global};

/// What the value is found to be.
fn kind_of(value: &Value) -> Found
    ensures { result ≡ kind (view value.now) }
{
    match value {
        Value::Null => Found::Null,
        Value::Bool(_) => Found::Boolean,
        Value::Number(_) => Found::Number,
        Value::String(_) => Found::Text,
        Value::Array(_) => Found::List,
        Value::Object(_) => Found::Object,
    }
}

#[tactic(auto, using(crate::proofs::Found::found_by_same))]
fn fault_at(
    alloc: Global,
    place: &Place,
    found: Found,
    wanted: Wanted,
) -> Result<Box<Fault>, AllocError>
    ensures { IfOk result (λ b. (whole : Data) → IsFoundThere found (at_place place.now whole)
        → IsFaultOf b.value whole) }
{
    let pointer = place.pointer(alloc)?;
    Ok(Box::new(
        alloc,
        Fault {
            pointer,
            found,
            wanted,
        },
    )?)
}

/// The error of a value that is not what is wanted at its place.
#[tactic(auto, using(crate::proofs::Found::kind_found, crate::proofs::Found::found_there))]
pub(crate) fn refusal(
    alloc: Global,
    place: &Place,
    value: &Value,
    wanted: Wanted,
) -> ReferencesError
    ensures { (whole : Data) → at_place place.now whole ≡ Some (view value.now)
        → IsErrorOf result whole }
{
    match fault_at(alloc, place, kind_of(value), wanted) {
        Ok(fault) => ReferencesError::Fault(fault),
        Err(_) => ReferencesError::OutOfMemory,
    }
}

/// The error of an item without an id.
#[tactic(auto, using(crate::proofs::Found::found_there))]
pub(crate) fn lacking_id(alloc: Global, place: &Place, item: &Value) -> ReferencesError
    requires { get (codes "id") (view item.now) ≡ None }
    ensures { (whole : Data) → at_place place.now whole ≡ Some (view item.now)
        → IsErrorOf result whole }
{
    if item.as_object().is_none() {
        return refusal(alloc, place, item, Wanted::Item);
    }
    match fault_at(alloc, place, Found::MissingId, Wanted::Id) {
        Ok(fault) => ReferencesError::Fault(fault),
        Err(_) => ReferencesError::OutOfMemory,
    }
}

/// The warnings of keys that stand more than once in their object.
fn repeated_warnings(alloc: Global, keys: Vec<Pointer>) -> Result<Vec<Warning>, AllocError> {
    let mut warnings = Vec::new(alloc);
    for pointer in keys {
        warnings.push(Warning {
            pointer,
            kind: WarningKind::RepeatedKey,
        })?;
    }
    Ok(warnings)
}

/// A reader of CSL-JSON.
#[derive(Drop)]
pub(crate) struct Reader {
    pub alloc: Global,
    pub warnings: Vec<Warning>,
    pub number_texts: NumberTexts,
    /// Whether an item with a fault is left out, with a warning.
    pub leaves_out_faults: bool,
    /// What guesses at the keys of items, names and dates, and at types.
    pub item_keys: Guesser,
    pub name_keys: Guesser,
    pub date_keys: Guesser,
    pub types: Guesser,
}

impl Reader {
    /// A reader of a value that doesn't keep this of its text. It has warned of repeated keys.
    pub(crate) fn new(alloc: Global, unkept: Unkept) -> Result<Reader, AllocError> {
        let Unkept {
            repeated_keys,
            number_texts,
        } = unkept;
        Ok(Reader {
            alloc,
            warnings: repeated_warnings(alloc, repeated_keys)?,
            number_texts,
            leaves_out_faults: false,
            item_keys: Guesser::new(alloc, item_keys(alloc)?),
            name_keys: Guesser::new(alloc, Vec::from_slice(alloc, NAME_KEYS)?),
            date_keys: Guesser::new(alloc, Vec::from_slice(alloc, DATE_KEYS)?),
            types: Guesser::new(alloc, type_names(alloc)?),
        })
    }

    /// Warns of the part at a place.
    pub(crate) fn warn(&mut self, place: &Place, kind: WarningKind) -> Result<(), AllocError> {
        let pointer = place.pointer(self.alloc)?;
        self.warnings.push(Warning { pointer, kind })?;
        Ok(())
    }

    /// Warns of an item that is left out for a fault.
    pub(crate) fn warn_of_fault(&mut self, fault: Fault) -> Result<(), AllocError> {
        let Fault {
            pointer,
            found,
            wanted,
        } = fault;
        self.warnings.push(Warning {
            pointer,
            kind: WarningKind::LeftOut { found, wanted },
        })?;
        Ok(())
    }

    /// The text of the number at a place.
    pub(crate) fn number_text(&self, place: &Place, number: &Number) -> Result<String, AllocError> {
        if self.number_texts.may_have(number) {
            let pointer = place.pointer(self.alloc)?;
            return self.number_texts.text_at(self.alloc, &pointer, number);
        }
        format!(in self.alloc; "{number}")
    }

    /// Warns of each key that no name has.
    pub(crate) fn warn_of_name_keys<'p>(
        &mut self,
        place: &'p Place,
        members: &'p Map<String, Value>,
    ) -> Result<(), AllocError> {
        for key in members.keys() {
            if !NAME_KEYS.contains(&key.as_str()) {
                let nearest = self.name_keys.guess(key.as_str())?;
                self.warn(
                    &place.member(key.as_str()),
                    WarningKind::UnknownKey { nearest },
                )?;
            }
        }
        Ok(())
    }

    /// Warns of each key that no date has.
    pub(crate) fn warn_of_date_keys<'p>(
        &mut self,
        place: &'p Place,
        members: &'p Map<String, Value>,
    ) -> Result<(), AllocError> {
        for key in members.keys() {
            if !DATE_KEYS.contains(&key.as_str()) {
                let nearest = self.date_keys.guess(key.as_str())?;
                self.warn(
                    &place.member(key.as_str()),
                    WarningKind::UnknownKey { nearest },
                )?;
            }
        }
        Ok(())
    }
}

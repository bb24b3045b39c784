//! Reading CSL-JSON.
ghost use Rattle.std.specs.Prelude.{◌≡◌, IfErr, MatchResult, Some};
ghost use Rattle.serde_json.specs.Data.{array};
ghost use Rattle.serde_json.specs.Read.{read};
ghost use Rattle.serde_json.specs.View.{items_view, view};
ghost use Rattle.reference_json.specs.Faults.{Faults, IsErrorOf};
ghost use Rattle.reference_json.specs.Texts.{IsErrorIn};

use crate::fault::{ReferencesError, Wanted};
use crate::place::Place;
use crate::reader::{Reader, refusal};
use crate::unkept::Unkept;
use crate::warning::{Warning, WarningKind};
use reference_values::reference::{Reference, References};
use serde_json::{Map, Value};
use std::alloc::{AllocError, Global};

/// What was read of CSL-JSON.
#[derive(Drop)]
pub struct ReadReferences {
    pub references: References,
    /// What is otherwise than it stands in the JSON, in the order of the items.
    pub warnings: Vec<Warning>,
}

impl Reader {
    /// The reference at this index of a list of items.
    #[tactic(auto, using(crate::proofs::Parts::item_there))]
    fn item_at(
        &mut self,
        place: &Place,
        items: &[Value],
        index: usize,
    ) -> Result<Option<Reference>, ReferencesError>
        ensures { Faults result place.now (array (items_view items.now)) }
    {
        match items.get(index) {
            Some(item) => Ok(Some(self.item(&place.item(index), item)?)),
            None => Ok(None),
        }
    }

    /// The references of a list of items.
    fn items(&mut self, place: &Place, items: &[Value]) -> Result<References, ReferencesError>
        ensures { Faults result place.now (array (items_view items.now)) }
    {
        let mut references = References::new(self.alloc);
        for index in 0..items.len() {
            match self.item_at(place, items, index) {
                Ok(Some(reference)) => {
                    if references.insert(reference)?.is_some() {
                        self.warn(&place.item(index), WarningKind::RepeatedId)?;
                    }
                }
                Ok(None) => {}
                Err(ReferencesError::Fault(fault)) if self.leaves_out_faults => {
                    self.warn_of_fault(Box::into_inner(fault))?;
                }
                Err(error) => return Err(error),
            }
        }
        Ok(references)
    }

    /// Warns of each key beside the list of items.
    fn warn_of_other_keys<'p>(
        &mut self,
        place: &'p Place,
        members: &'p Map<String, Value>,
    ) -> Result<(), AllocError> {
        for key in members.keys() {
            if key.as_str() != "items" {
                let kind = WarningKind::UnknownKey { nearest: None };
                self.warn(&place.member(key.as_str()), kind)?;
            }
        }
        Ok(())
    }

    /// The references that stand under `items`.
    fn wrapped_items(&mut self, place: &Place, whole: &Value) -> Result<References, ReferencesError>
        ensures { Faults result place.now (view whole.now) }
    {
        match whole.get("items") {
            Some(Value::Array(items)) => self.items(&place.member("items"), items),
            Some(other) => Err(refusal(self.alloc, &place.member("items"), other, Wanted::Items)),
            None => Err(refusal(self.alloc, place, whole, Wanted::Items)),
        }
    }

    /// The references of the whole of the JSON.
    fn whole(&mut self, place: &Place, whole: &Value) -> Result<References, ReferencesError>
        ensures { Faults result place.now (view whole.now) }
    {
        match whole {
            Value::Array(items) => self.items(place, items),
            Value::Object(members) => {
                let references = self.wrapped_items(place, whole)?;
                self.warn_of_other_keys(place, members)?;
                Ok(references)
            }
            _ => Err(refusal(self.alloc, place, whole, Wanted::Items)),
        }
    }
}

/// The references of a JSON value: a list of items, or an object that has one under `items`, as
/// Zotero's web interface writes it. Of items with the same id the last stays.
///
/// # Errors
/// The first fault of an item, in the order of the items; a lack of memory.
pub fn references_of(alloc: Global, value: &Value) -> Result<ReadReferences, ReferencesError>
    ensures { IfErr result (λ e. IsErrorOf e (view value.now)) }
{
    references_with(Reader::new(alloc, Unkept::unknown(alloc))?, value)
}

/// The references of a JSON value that this reader reads.
fn references_with(reader: Reader, value: &Value) -> Result<ReadReferences, ReferencesError>
    ensures { IfErr result (λ e. IsErrorOf e (view value.now)) }
{
    let mut reader = reader;
    match reader.whole(&Place::Whole, value) {
        Ok(references) => Ok(ReadReferences {
            references,
            warnings: reader.warnings,
        }),
        Err(error) => Err(error),
    }
}

/// The JSON value that the bytes are.
fn value_of(alloc: Global, bytes: &[u8]) -> Result<Value, ReferencesError>
    ensures { MatchResult result (λ v. read bytes.now ≡ Some (view v))
        (λ e. IsErrorIn e bytes.now) }
{
    let text = match str::from_utf8(bytes) {
        Ok(text) => text,
        Err(error) => {
            return Err(ReferencesError::NoUtf8 {
                byte: error.valid_up_to(),
            });
        }
    };
    match Value::from_str(alloc, text) {
        Ok(value) => Ok(value),
        Err(error) if error.is_memory() => Err(ReferencesError::OutOfMemory),
        Err(error) => Err(ReferencesError::NoJson {
            line: error.line(),
            column: error.column(),
        }),
    }
}

/// The references of CSL-JSON: of a list of items, or of an object that has one under `items`, as
/// Zotero's web interface writes it. Of items with the same id the last stays.
///
/// # Errors
/// Where the bytes are no UTF-8 or no JSON; the first fault of an item, in the order of the items;
/// a lack of memory.
pub fn read_references(alloc: Global, bytes: &[u8]) -> Result<ReadReferences, ReferencesError>
    ensures { IfErr result (λ e. IsErrorIn e bytes.now) }
{
    let unkept = Unkept::of_bytes(alloc, bytes)?;
    let value = value_of(alloc, bytes)?;
    references_with(Reader::new(alloc, unkept)?, &value)
}

/// The references of CSL-JSON, as `read_references` gives them; but an item with a fault is left
/// out, and a warning has the fault.
///
/// # Errors
/// Where the bytes are no UTF-8, no JSON, or no list of items; a lack of memory.
pub fn read_sound_references(alloc: Global, bytes: &[u8]) -> Result<ReadReferences, ReferencesError>
    ensures { IfErr result (λ e. IsErrorIn e bytes.now) }
{
    let unkept = Unkept::of_bytes(alloc, bytes)?;
    let value = value_of(alloc, bytes)?;
    let mut reader = Reader::new(alloc, unkept)?;
    reader.leaves_out_faults = true;
    references_with(reader, &value)
}

//! Copies of the texts of a JSON value.
ghost use Rattle.std.specs.Prelude.{◌≡◌, Some};
ghost use Rattle.serde_json.specs.Data.{Data};
ghost use Rattle.serde_json.specs.Find.{as_str, at};
ghost use Rattle.serde_json.specs.View.{view};
ghost use Rattle.document_values.specs.Words.{required, where_present};
ghost use Rattle.document_values.specs.Reads.{Faults, Reads};

use crate::error::ReadError;
use crate::fault::Wanted;
use crate::refusals::{lacking, unlike};
use csl_base::text::Text;
use serde_json::Value;
use std::alloc::Global;

/// A copy of the text that the value is.
///
/// # Errors
/// The fault of a value that is no text; lack of memory.
pub fn held_text(alloc: Global, value: &Value) -> Result<Text, ReadError>
    ensures read { Reads (λ t. t) result (as_str (view value.now)) }
    ensures fault { Faults result (view value.now) }
{
    match value.as_str() {
        Some(text) => Ok(Text::copied(alloc, text)?),
        None => Err(unlike(alloc, value, Wanted::Text)),
    }
}

/// A copy of the text that the item at this place is.
///
/// # Errors
/// The fault of an item that is no text, as one of the list; lack of memory.
#[tactic(auto, using(crate::proofs::Ways::fails_outside))]
pub fn item_text(alloc: Global, item: &Value, place: usize) -> Result<Text, ReadError>
    ensures read { Reads (λ t. t) result (as_str (view item.now)) }
    ensures fault { (whole : Data) → at place whole ≡ Some (view item.now) → Faults result whole }
{
    held_text(alloc, item).map_err(|error| error.in_item(place))
}

/// A copy of the text of the key, which has to be there.
///
/// # Errors
/// The fault of an object that lacks the key, or of a member that is no text; lack of memory.
#[tactic(auto, using(crate::proofs::Ways::fails_outside))]
pub fn held_text_at(alloc: Global, object: &Value, key: &str) -> Result<Text, ReadError>
    ensures read { Reads (λ t. t) result (required as_str key.now (view object.now)) }
    ensures fault { Faults result (view object.now) }
{
    match object.get(key) {
        Some(member) => held_text(alloc, member).map_err(|error| error.under(alloc, key)),
        None => Err(lacking(alloc, object, key)),
    }
}

/// A copy of the text of the key, if the key is there.
///
/// # Errors
/// The fault of a member that is no text, as one of the object; lack of memory.
#[tactic(auto, using(crate::proofs::Ways::fails_outside))]
pub fn optional_held_text(
    alloc: Global,
    object: &Value,
    key: &str,
) -> Result<Option<Text>, ReadError>
    ensures read { Reads (λ t. t) result (where_present as_str key.now (view object.now)) }
    ensures fault { Faults result (view object.now) }
{
    match object.get(key) {
        None => Ok(None),
        Some(member) => match held_text(alloc, member) {
            Ok(text) => Ok(Some(text)),
            Err(error) => Err(error.under(alloc, key)),
        },
    }
}

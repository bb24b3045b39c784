//! Whole numbers of a JSON value.
ghost use Rattle.serde_json.specs.View.{view};
ghost use Rattle.document_values.specs.Words.{required, whole};
ghost use Rattle.document_values.specs.Reads.{Faults, Reads};

use document_values::error::ReadError;
use document_values::fault::Wanted;
use document_values::refusals::{lacking, unlike};
use serde_json::Value;
use std::alloc::Global;

/// The whole number that the value is.
pub(crate) fn whole_of(alloc: Global, value: &Value) -> Result<usize, ReadError>
    ensures read { Reads (λ n. n) result (whole (view value.now)) }
    ensures fault { Faults result (view value.now) }
{
    match value.as_u64() {
        Some(number) => Ok(number as usize),
        None => Err(unlike(alloc, value, Wanted::Whole)),
    }
}

/// The whole number of the key, which has to be there.
#[tactic(auto, using(document_values::proofs::Ways::fails_outside))]
pub(crate) fn whole_at(alloc: Global, object: &Value, key: &str) -> Result<usize, ReadError>
    ensures read { Reads (λ n. n) result (required whole key.now (view object.now)) }
    ensures fault { Faults result (view object.now) }
{
    match object.get(key) {
        Some(member) => whole_of(alloc, member).map_err(|error| error.under(alloc, key)),
        None => Err(lacking(alloc, object, key)),
    }
}

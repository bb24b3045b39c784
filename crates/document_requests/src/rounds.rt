//! How a document has works disambiguated.
ghost use Rattle.serde_json.specs.View.{view};
ghost use Rattle.document_requests.specs.Rounds.{rounds_form};
ghost use Rattle.document_values.specs.Reads.{Faults, Reads};

use document_values::error::ReadError;
use document_values::words::name_or;
use rounds_runs::mode::RoundMode;
use serde_json::Value;
use std::alloc::Global;

/// How works that read alike are disambiguated.
#[derive(Clone, Copy)]
pub enum Rounds {
    /// In so many rounds.
    Mode(RoundMode),
    /// As CSL 1.0.2 has it.
    Csl,
}

/// The names of the modes.
const ROUNDS: &[(&str, Rounds)] = &[
    ("three", Rounds::Mode(RoundMode::Three)),
    ("full", Rounds::Mode(RoundMode::Full)),
    ("csl", Rounds::Csl),
];

/// What stands under the key `rounds`; three rounds where it is absent.
pub(crate) fn rounds_of(alloc: Global, object: &Value) -> Result<Rounds, ReadError>
    ensures read { Reads (λ r. r) result (rounds_form (view object.now)) }
    ensures fault { Faults result (view object.now) }
{
    let three = Rounds::Mode(RoundMode::Three);
    name_or(alloc, ROUNDS, object, "rounds", three)
}

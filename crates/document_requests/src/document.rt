//! The document as a whole, and what it asks for.
ghost use Rattle.std.specs.Prelude.{◌≡◌, IfOk, codes, slice_get};
ghost use Rattle.serde_json.specs.Read.{read};
ghost use Rattle.serde_json.specs.View.{view};
ghost use Rattle.document_requests.specs.Finders.{text_in};
ghost use Rattle.document_requests.specs.FoundView.{unnamed};
ghost use Rattle.document_styles.specs.NamedStyleView.{named_styles_view};
ghost use Rattle.document_styles.specs.Styles.{style_named};
ghost use Rattle.document_requests.specs.Entries.{entry_named};
ghost use Rattle.document_requests.specs.Faults.{FaultsIn, IsOfText, IsTextError, TextFaults};
ghost use Rattle.document_requests.specs.Form.{asked_form, top_form, utf8_text, value_in};
ghost use Rattle.document_requests.specs.Indexes.{ReadsAll, asked_at};
ghost use Rattle.document_requests.specs.JobView.{asked_bibliography_view, asked_view};
ghost use Rattle.document_requests.specs.Requests.{wanted_form};
ghost use Rattle.document_values.specs.Words.{required};
ghost use Rattle.document_values.specs.Reads.{Faults, Reads};

use crate::finders::{Indexes, entry_indexes, style_indexes};
use crate::requests::{AskedRequest, Wanted, bibliography_request_of, requests_of};
use crate::rounds::{Rounds, rounds_of};
use csl_base::entry::PlainEntry;
use document_styles::styles::NamedStyle;
use document_values::error::ReadError;
use document_values::fault;
use document_values::fault::{Fault, Found};
use document_values::refusals::lacking;
use document_values::words::{number_or, object_with};
use serde_json::Value;
use std::alloc::Global;

/// What a document asks for. Styles and entries are indexes into those of the document.
#[derive(Drop)]
pub struct Job {
    pub requests: Vec<AskedRequest>,
    pub wanted: Wanted,
    /// The number of the first entry.
    pub offset: usize,
    pub rounds: Rounds,
}

/// The error of a text that is none, or no JSON.
fn wrong_text(alloc: Global, found: Found, wanted: fault::Wanted) -> ReadError
    ensures { IsOfText found → IsTextError result }
{
    let fault = Fault {
        path: Vec::new(alloc),
        found,
        wanted,
    };
    match Box::new(alloc, fault) {
        Ok(fault) => ReadError::Document(fault),
        Err(_) => ReadError::OutOfMemory,
    }
}

/// The text that the bytes are, which have to be UTF-8.
#[tactic(auto, using(crate::proofs::Utf8::text_there, crate::proofs::Utf8::no_text))]
pub fn utf8_text(alloc: Global, bytes: &[u8]) -> Result<&str, ReadError>
    ensures read { Reads (λ s. s.now) result (utf8_text bytes.now) }
    ensures fault { TextFaults result }
{
    match str::from_utf8(bytes) {
        Ok(text) => Ok(text),
        Err(error) => Err(wrong_text(
            alloc,
            Found::NoUtf8 {
                byte: error.valid_up_to(),
            },
            fault::Wanted::Utf8,
        )),
    }
}

/// The JSON value that the text is.
pub fn value_of(alloc: Global, text: &str) -> Result<Value, ReadError>
    ensures read { Reads view result (read text.now) }
    ensures fault { TextFaults result }
{
    match Value::from_str(alloc, text) {
        Ok(value) => Ok(value),
        Err(error) => {
            if error.is_memory() {
                return Err(ReadError::OutOfMemory);
            }
            let found = Found::NoJson {
                line: error.line(),
                column: error.column(),
            };
            Err(wrong_text(alloc, found, fault::Wanted::Json))
        }
    }
}

/// The JSON value that the bytes are.
#[tactic(auto, unfolding(crate::specs::Form::value_in))]
pub fn read_value(alloc: Global, bytes: &[u8]) -> Result<Value, ReadError>
    ensures read { Reads view result (value_in bytes.now) }
    ensures fault { FaultsIn result (value_in bytes.now) }
{
    let text = utf8_text(alloc, bytes)?;
    value_of(alloc, text)
}

/// The object that the document is.
pub fn top_of(alloc: Global, value: &Value) -> Result<&Value, ReadError>
    ensures read { Reads (λ v. view v.now) result (top_form (view value.now)) }
    ensures fault { Faults result (view value.now) }
    ensures same { IfOk result (λ v. v.now ≡ value.now) }
{
    object_with(
        alloc,
        &[
            "styles",
            "locales",
            "entries",
            "requests",
            "bibliography",
            "offset",
            "rounds",
        ],
        value,
    )
}

/// What is asked of the bibliography, under the key `bibliography`, which has to be there.
#[tactic(auto, using(document_values::proofs::Ways::fails_outside))]
fn wanted_at(
    alloc: Global,
    styles: &Indexes<'_>,
    entries: &Indexes<'_>,
    object: &Value,
) -> Result<Wanted, ReadError>
    ensures read { Reads asked_bibliography_view result
        (required (wanted_form (text_in styles.now) (text_in entries.now)) (codes "bibliography")
        (view object.now)) }
    ensures fault { Faults result (view object.now) }
{
    match object.get("bibliography") {
        Some(member) => match bibliography_request_of(alloc, styles, entries, member) {
            Ok(wanted) => Ok(wanted),
            Err(error) => Err(error.under(alloc, "bibliography")),
        },
        None => Err(lacking(alloc, object, "bibliography")),
    }
}

/// What the document asks for; the maps have the indexes of its styles and entries.
#[tactic(auto, unfolding(crate::specs::Form::asked_form))]
fn job_of(
    alloc: Global,
    styles: &Indexes<'_>,
    entries: &Indexes<'_>,
    object: &Value,
) -> Result<Job, ReadError>
    ensures read { Reads asked_view result
        (asked_form (text_in styles.now) (text_in entries.now) (view object.now)) }
    ensures fault { Faults result (view object.now) }
{
    let rounds = rounds_of(alloc, object)?;
    let requests = requests_of(alloc, styles, entries, rounds, object)?;
    let wanted = wanted_at(alloc, styles, entries, object)?;
    let offset = number_or(alloc, object, "offset", 0)?;
    Ok(Job {
        requests,
        wanted,
        offset,
        rounds,
    })
}

/// What the document asks for. A name finds the style of that name, and a key the first entry that
/// has it.
pub fn job_in(
    alloc: Global,
    styles: &[NamedStyle],
    entries: &[PlainEntry],
    object: &Value,
) -> Result<Job, ReadError>
    ensures read { ReadsAll
        (λ job. asked_at (slice_get entries.now) (slice_get (unnamed styles.now)) (asked_view job))
        result
        (asked_form (style_named (named_styles_view styles.now)) (entry_named entries.now)
        (view object.now)) }
    ensures fault { Faults result (view object.now) }
{
    let by_name = style_indexes(alloc, styles)?;
    let by_key = entry_indexes(alloc, entries)?;
    job_of(alloc, &by_name, &by_key, object)
}

//! The program's work, over any writer.
ghost use Rattle.std.specs.Prelude.{◌≡◌, ℕ, None, OnOk, IfErr, IsErrOf};
ghost use Rattle.std.specs.Io.KnownBytes.{Appends, Keeps};
ghost use Rattle.csl_driver.specs.declared.error.RingLocation.{RingLocation};
ghost use Rattle.document_requests.specs.Form.{form};
ghost use Rattle.document_answer.specs.Print.{json_text, print};
ghost use Rattle.document_answer.specs.Run.{
  answer,
  IsRunAnswer,
  HasAnswer,
  HasFirstRing,
  HasTooLargeNumbers,
  IsDocumentThat,
  Prints,
};

use crate::document::Document;
use crate::error::RunError;
use crate::printing::print_rendered;
use csl_driver::rendered::Rendered;
use std::alloc::Global;
use std::io::Write;
use write_json::printing::print_json;

/// The answer to the document of these bytes. Its JSON is dropped before anything is rendered.
///
/// # Errors
/// Those of `run`, but never `Output`.
pub fn answer_bytes(alloc: Global, bytes: &[u8]) -> Result<Rendered, RunError>
    ensures { IsRunAnswer result (form bytes.now) }
{
    let document = Document::parse(alloc, bytes)?;
    document.answer(alloc)
}

/// The text that is printed for the document of these bytes.
///
/// # Errors
/// Those of `run`, but never `Output`.
pub fn print_bytes(alloc: Global, bytes: &[u8]) -> Result<String, RunError>
    ensures { Prints print result (form bytes.now) }
{
    let answer = answer_bytes(alloc, bytes)?;
    Ok(print_rendered(alloc, &answer)?)
}

/// The answer to the document of these bytes as JSON.
///
/// # Errors
/// Those of `run`, but never `Output`.
pub fn print_json_bytes(alloc: Global, bytes: &[u8]) -> Result<String, RunError>
    ensures { Prints json_text result (form bytes.now) }
{
    let answer = answer_bytes(alloc, bytes)?;
    Ok(print_json(alloc, &answer)?)
}

/// Writes what the document of these bytes prints. The whole text is ready before any of it is
/// written.
///
/// # Errors
/// `Document` only where the bytes are no document; `MacroRing` and `NumberOverflow` only where the
/// driver refuses the document; `Output` where the writer fails, when part of the text may have
/// been written; `OutOfMemory` where memory runs out before the text is ready.
pub fn run<W: Write>(alloc: Global, bytes: &[u8], out: &mut W) -> Result<(), RunError>
    ensures written { OnOk result (IsDocumentThat (form bytes.now)
        (λ d. Appends (W.contents out.old) (W.contents out.new) (print (answer d)))) }
    ensures answered { OnOk result (IsDocumentThat (form bytes.now) HasAnswer) }
    ensures document { IsErrOf result RunError.Document → form bytes.now ≡ None }
    ensures overflow { IsErrOf result RunError.NumberOverflow
        → IsDocumentThat (form bytes.now) HasTooLargeNumbers }
    ensures ring { (place : RingLocation) (i : ℕ) → IsErrOf result (RunError.MacroRing place i)
        → IsDocumentThat (form bytes.now) (HasFirstRing place i) }
    ensures output { IsErrOf result RunError.Output → IsDocumentThat (form bytes.now) HasAnswer }
    ensures nothing { IfErr result (λ e. (e ≡ RunError.Output → ⊥)
        → Keeps (W.contents out.old) (W.contents out.new)) }
{
    let document = Document::parse(alloc, bytes)?;
    let text = print_rendered(alloc, &document.answer(alloc)?)?;
    drop(document);
    match out.write_all(text.as_bytes()) {
        Ok(()) => Ok(()),
        Err(_) => Err(RunError::Output),
    }
}

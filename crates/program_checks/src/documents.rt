//! Documents of `cite_run` are answered, and their faults reported.
use crate::document_pages::{language_of, targets_of, text_at};
use document_answer::error::RunError;
use document_answer::faults::print_fault_bytes;
use document_answer::limits::{LimitError, check_limits};
use document_answer::running::{answer_bytes, print_bytes, print_json_bytes};
use driver_assembly::rendered::Rendered;
use driver_styles::limits::{Excess, Limits};
use fault_places::place::FaultPlace;
use program_command::arguments::{DocumentOptions, OutputFormat};
use program_faults::finding::Finding;
use program_files::document_error::DocumentError;
use program_files::error::CommandError;
use program_files::files::bytes_of;
use program_files::json_causes::{behind_mark, json_cause, value_or_null};
use program_files::reports::{document_refused, refused, refused_for};
use program_pages::documents::{answer_of, layout_of, no_marks};
use program_pages::printing::{Printing, print_whole};
use serde_json::Value;
use std::alloc::{AllocError, Global};
use std::rt::Files;

/// Prints the answer to a document. Its layouts are held to the limits of the command before
/// anything is rendered.
///
/// # Errors
///
/// Those of `bytes_of`; `Refused` where it is no document; `Document` where it has no answer, or a
/// layout exceeds a limit; `Output`.
pub fn render(
    rt: &(impl Files + Input + Print + AllocGlobal),
    options: &DocumentOptions,
) -> Result<(), CommandError> {
    let bytes = bytes_of(rt, options.document.as_str())?;
    check_layouts(rt.alloc(), options, &bytes)?;
    match options.format {
        OutputFormat::Text => print_text(rt, options, &bytes, print_bytes(rt.alloc(), &bytes)),
        OutputFormat::Json => print_text(rt, options, &bytes, json_line(rt.alloc(), &bytes)),
        OutputFormat::Html | OutputFormat::Markdown | OutputFormat::Latex => {
            match answer_bytes(rt.alloc(), &bytes) {
                Ok(rendered) => print_form(rt, options, &bytes, &rendered),
                Err(error) => Err(unanswered(rt.alloc(), options, &bytes, error)?),
            }
        }
    }
}

/// Prints a text that an answer to a document is.
fn print_text(
    rt: &(impl Print + AllocGlobal),
    options: &DocumentOptions,
    bytes: &[u8],
    text: Result<String, RunError>,
) -> Result<(), CommandError> {
    match text {
        Ok(text) => Ok(print!(rt; "{}", text.as_str())?),
        Err(error) => Err(unanswered(rt.alloc(), options, bytes, error)?),
    }
}

/// The answer to a document as a line of JSON.
fn json_line(alloc: Global, bytes: &[u8]) -> Result<String, RunError> {
    let mut text = print_json_bytes(alloc, bytes)?;
    text.push_str("\n")?;
    Ok(text)
}

/// Prints the answer to a document as HTML, Markdown or LaTeX. Cites lead to their items only where
/// there is a bibliography.
fn print_form(
    rt: &(impl Print + AllocGlobal),
    options: &DocumentOptions,
    bytes: &[u8],
    rendered: &Rendered,
) -> Result<(), CommandError> {
    let document = value_or_null(rt.alloc(), behind_mark(bytes));
    let mut targets = Vec::new(rt.alloc());
    if options.links_citations && rendered.bibliography.is_some() {
        targets = targets_of(rt.alloc(), &document)?;
    }
    let answer = answer_of(rt.alloc(), rendered)?;
    let printing = Printing {
        format: options.format,
        is_standalone: options.is_standalone,
        targets: &targets,
        layout: rendered.bibliography.as_ref().map(layout_of),
        language: language_of(&document),
        marks: no_marks(),
    };
    print_whole(rt, &printing, &answer)
}

/// Whether the layouts of the styles of a document are within the limits of the command.
fn check_layouts(
    alloc: Global,
    options: &DocumentOptions,
    bytes: &[u8],
) -> Result<(), CommandError> {
    let limits = Limits {
        depth: options.depth,
        elements: options.elements,
    };
    match check_limits(alloc, bytes, &limits) {
        Ok(()) => Ok(()),
        Err(error) => Err(not_let_through(alloc, options, bytes, error)?),
    }
}

fn not_let_through(
    alloc: Global,
    options: &DocumentOptions,
    bytes: &[u8],
    error: LimitError,
) -> Result<CommandError, CommandError> {
    let path = options.document.as_str();
    let why = match error {
        LimitError::Document => return no_document(alloc, path, bytes),
        LimitError::OutOfMemory => return Ok(CommandError::OutOfMemory),
        LimitError::Exceeded(Excess::Depth) => DocumentError::TooDeep(options.depth),
        LimitError::Exceeded(Excess::Elements) => DocumentError::TooManyElements(options.elements),
    };
    Ok(document_refused(alloc, path, why)?)
}

fn unanswered(
    alloc: Global,
    options: &DocumentOptions,
    bytes: &[u8],
    error: RunError,
) -> Result<CommandError, CommandError> {
    let path = options.document.as_str();
    let why = match error {
        RunError::Document => return no_document(alloc, path, bytes),
        RunError::OutOfMemory => return Ok(CommandError::OutOfMemory),
        RunError::Output => return Ok(CommandError::Output),
        RunError::NumberOverflow => DocumentError::NumberOverflow,
        RunError::MacroRing { place, macro_index } => DocumentError::MacroRing {
            place,
            macro_index,
        },
    };
    Ok(document_refused(alloc, path, why)?)
}

/// Where bytes are no document.
fn no_document(alloc: Global, path: &str, bytes: &[u8]) -> Result<CommandError, CommandError> {
    match document_fault(alloc, bytes)? {
        Some(fault) => Ok(refused_for(alloc, path, fault)?),
        None => Ok(refused(alloc, path, &"no document")?),
    }
}

/// The first thing that is wrong with a document, if anything is.
///
/// # Errors
///
/// `OutOfMemory`.
pub(crate) fn document_fault(alloc: Global, bytes: &[u8]) -> Result<Option<Finding>, CommandError> {
    let Ok(fault) = print_fault_bytes(alloc, bytes) else {
        return Err(CommandError::OutOfMemory);
    };
    if fault.is_empty() {
        return Ok(None);
    }
    let Ok(fault) = Value::from_str(alloc, fault.as_str()) else {
        return Err(CommandError::OutOfMemory);
    };
    Ok(Some(in_words(alloc, bytes, &fault)?))
}

/// A fault of these bytes, which is given as JSON, in the words of faults of references.
fn in_words(alloc: Global, bytes: &[u8], fault: &Value) -> Result<Finding, AllocError> {
    if let Some(cause) = json_cause(alloc, bytes)? {
        return Finding::error(alloc, FaultPlace::Whole, &cause);
    }
    let found = text_at(fault, "found").unwrap_or("");
    let wanted = text_at(fault, "wanted").unwrap_or("");
    let why = format!(in alloc; "found {found}, wanted {wanted}")?;
    let pointer = String::from_str(alloc, text_at(fault, "pointer").unwrap_or(""))?;
    Finding::error(alloc, FaultPlace::Pointer(pointer), &why)
}

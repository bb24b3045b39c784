//! Citations of files, with what is wrong and odd in them.
use cite_json::fault::{CitationFault, CitationsError};
use cite_json::reading::{ReadCitations, read_citations};
use cite_json::warning::CiteWarning;
use fault_places::place::FaultPlace;
use program_faults::finding::Finding;
use program_files::error::CommandError;
use program_files::json_causes::{behind_mark, json_refused};
use program_files::reports::{refused, refused_in};
use reference_files::form::{ReferenceForm, form_of};
use std::alloc::{AllocError, Global};

/// What a file of references is that is named as one of citations.
const REFERENCES: &str = "these are references, not citations: name them by `--references`";

/// The citations in a file of these bytes, behind a byte order mark or without one.
///
/// # Errors
///
/// `Refused` where it has none; `OutOfMemory`.
pub fn citations_in(
    alloc: Global,
    path: &str,
    bytes: &[u8],
) -> Result<ReadCitations, CommandError> {
    let bytes = behind_mark(bytes);
    match read_citations(alloc, bytes) {
        Ok(read) => Ok(read),
        Err(CitationsError::OutOfMemory) => Err(CommandError::OutOfMemory),
        Err(_) if form_of(None, path, bytes) != ReferenceForm::Json => {
            Err(refused(alloc, path, &REFERENCES)?)
        }
        Err(CitationsError::Fault(fault)) => Err(citation_refused(alloc, path, &fault)?),
        Err(error) => Err(json_refused(alloc, path, bytes, &error)?),
    }
}

/// What is wrong with the citations of a file.
fn citation_refused(
    alloc: Global,
    path: &str,
    fault: &CitationFault,
) -> Result<CommandError, AllocError> {
    if fault.pointer.steps.is_empty() {
        return refused(alloc, path, &fault.wanted);
    }
    let place = FaultPlace::at_pointer(alloc, &fault.pointer)?;
    refused_in(alloc, path, place, &fault.wanted)
}

/// What is odd in the citations of a file.
///
/// # Errors
///
/// Where memory is refused.
pub fn citation_warnings(
    alloc: Global,
    warnings: &[CiteWarning],
) -> Result<Vec<Finding>, AllocError> {
    let mut findings = Vec::new(alloc);
    for CiteWarning { pointer, kind } in warnings {
        let place = FaultPlace::at_pointer(alloc, pointer)?;
        findings.push(Finding::warning(alloc, place, kind)?)?;
    }
    Ok(findings)
}

//! Cites of items that aren't there.
use crate::error::CommandError;
use crate::reports::{refused_for_all, show_findings};
use cite_json::unknown::{UnknownItem, unknown_items};
use cite_tasks::cites::Citation;
use fault_places::place::FaultPlace;
use program_faults::finding::Finding;
use reference_values::reference::References;
use std::alloc::{AllocError, Global};

/// Refuses citations with a cite of an item that isn't among these.
///
/// # Errors
///
/// `Refused` with each such cite; `OutOfMemory`.
pub fn check_ids(
    alloc: Global,
    path: &str,
    citations: &[Citation],
    references: &References,
) -> Result<(), CommandError> {
    let mut faults = Vec::new(alloc);
    for item in unknown_items(alloc, citations, references)? {
        faults.push(unknown_fault(alloc, &item)?)?;
    }
    if faults.is_empty() {
        return Ok(());
    }
    Err(refused_for_all(alloc, path, faults)?)
}

/// Warns of each cite of an item that isn't among these.
///
/// # Errors
///
/// Where memory is refused.
pub fn warn_of_unknown(
    rt: &(impl Eprint + AllocGlobal),
    path: &str,
    citations: &[Citation],
    references: &References,
) -> Result<(), AllocError> {
    let mut warnings = Vec::new(rt.alloc());
    for item in unknown_items(rt.alloc(), citations, references)? {
        warnings.push(unknown_warning(rt.alloc(), &item)?)?;
    }
    show_findings(rt, path, &warnings);
    Ok(())
}

/// What is wrong with a cite.
fn unknown_fault(alloc: Global, item: &UnknownItem) -> Result<Finding, AllocError> {
    Finding::error(alloc, cite_place(alloc, item)?, item)
}

/// The same of a draft, where it is odd.
fn unknown_warning(alloc: Global, item: &UnknownItem) -> Result<Finding, AllocError> {
    Finding::warning(alloc, cite_place(alloc, item)?, item)
}

/// Where a cite is, by the indexes of its citation and its own.
fn cite_place(alloc: Global, item: &UnknownItem) -> Result<FaultPlace, AllocError> {
    let citation = item.citation;
    let cite = item.cite;
    let pointer = format!(in alloc; "/{citation}/{cite}")?;
    Ok(FaultPlace::Pointer(pointer))
}

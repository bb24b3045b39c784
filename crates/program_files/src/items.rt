//! Items, by their places in a file of references.
use crate::error::CommandError;
use crate::json_causes::{behind_mark, value_or_null};
use crate::reports::{refused_in, show_findings};
use fault_places::place::FaultPlace;
use program_faults::finding::Finding;
use reference_json::fault::{Fault, Pointer, Step};
use reference_json::warning::Warning;
use serde_json::Value;
use std::alloc::{AllocError, Global};

/// Prints what is odd in the items of a file of these bytes, each with the id of its item.
///
/// # Errors
///
/// Where memory is refused.
pub fn show_item_warnings(
    rt: &(impl Eprint + AllocGlobal),
    path: &str,
    bytes: &[u8],
    warnings: &[Warning],
) -> Result<(), AllocError> {
    show_findings(rt, path, &item_warnings(rt.alloc(), bytes, warnings)?);
    Ok(())
}

/// What is odd in the items of a file of these bytes, each with the id of its item.
///
/// # Errors
///
/// Where memory is refused.
pub fn item_warnings(
    alloc: Global,
    bytes: &[u8],
    warnings: &[Warning],
) -> Result<Vec<Finding>, AllocError> {
    let mut findings = Vec::new(alloc);
    if warnings.is_empty() {
        return Ok(findings);
    }
    let whole = value_or_null(alloc, behind_mark(bytes));
    for warning in warnings {
        findings.push(item_warning(alloc, &whole, warning)?)?;
    }
    Ok(findings)
}

/// What is odd in an item of this JSON.
fn item_warning(alloc: Global, whole: &Value, warning: &Warning) -> Result<Finding, AllocError> {
    let Warning { pointer, kind } = warning;
    let item = named_item(alloc, whole, pointer)?;
    let item = item.as_str();
    let what = format!(in alloc; "{kind}{item}")?;
    Finding::warning(alloc, FaultPlace::at_pointer(alloc, pointer)?, &what)
}

/// What is wrong with an item of a file of these bytes, with the id of the item.
///
/// # Errors
///
/// Where memory is refused.
pub fn item_refused(
    alloc: Global,
    path: &str,
    bytes: &[u8],
    fault: &Fault,
) -> Result<CommandError, AllocError> {
    let Fault {
        pointer,
        found,
        wanted,
    } = fault;
    let whole = value_or_null(alloc, bytes);
    let item = named_item(alloc, &whole, pointer)?;
    let item = item.as_str();
    let why = format!(in alloc; "found {found}, wanted {wanted}{item}")?;
    refused_in(alloc, path, FaultPlace::at_pointer(alloc, pointer)?, &why)
}

/// The words that name the item to which a way leads, or into which; empty where that has no id.
fn named_item(alloc: Global, whole: &Value, pointer: &Pointer) -> Result<String, AllocError> {
    match id_at(whole, &pointer.steps) {
        Some(Value::String(id)) => {
            let id = id.as_str();
            format!(in alloc; " (item `{id}`)")
        }
        Some(Value::Number(id)) => format!(in alloc; " (item `{id}`)"),
        _ => Ok(String::new(alloc)),
    }
}

/// The id of the item to which steps lead, or into which.
fn id_at<'v>(whole: &'v Value, steps: &[Step]) -> Option<&'v Value> {
    match steps {
        [Step::Item(index), ..] => whole.get(*index)?.get("id"),
        [Step::Key(key), Step::Item(index), ..] if key.as_str() == "items" => {
            whole.get("items")?.get(*index)?.get("id")
        }
        _ => None,
    }
}

/// Whether bytes begin as BibTeX does, with an entry or a comment.
pub fn is_bibtex(bytes: &[u8]) -> bool {
    let mut marks = bytes
        .iter()
        .copied()
        .filter(|byte| !byte.is_ascii_whitespace());
    matches!(marks.next(), Some(b'@' | b'%'))
}

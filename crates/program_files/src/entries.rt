//! References of files in any form, as CSL-JSON.
use crate::error::CommandError;
use crate::files::bytes_of;
use crate::json_causes::{behind_mark, value_in};
use crate::reports::{refused, show_findings, show_warning};
use fault_places::place::FaultPlace;
use program_command::arguments::EntriesOptions;
use program_faults::finding::Finding;
use reference_files::form::{ReferenceForm, form_of};
use reference_files::reading::read_file;
use reference_items::json::json_of;
use reference_items::reading::{Loss, ReadItems};
use serde_json::Value;
use std::alloc::{AllocError, Global};
use std::rt::Files;
use style_english::language::DEFAULT_LANGUAGE;
use style_xml::error::Place;

/// Prints the references of files as one list of CSL-JSON, and what was lost of them, by entry and
/// field, on standard error.
///
/// # Errors
///
/// Those of `bytes_of`; `Refused` where a file isn't of its form; `Output`; `OutOfMemory`.
pub fn entries(
    rt: &(impl Files + Input + Print + Eprint + AllocGlobal),
    options: &EntriesOptions,
) -> Result<(), CommandError> {
    let mut list = String::from_str(rt.alloc(), "[")?;
    for path in &options.files {
        let path = path.as_str();
        let bytes = bytes_of(rt, path)?;
        let form = form_of(options.from.as_deref(), path, &bytes);
        match items_of(rt.alloc(), path, form, &bytes)? {
            Some(read) => push_read(rt, path, &bytes, &read, &mut list)?,
            None => push_json(rt.alloc(), path, &bytes, &mut list)?,
        }
    }
    list.push_str("\n]\n")?;
    print!(rt; "{}", list.as_str())?;
    Ok(())
}

/// Appends the items of a file in another form. What was lost of them is printed.
fn push_read(
    rt: &(impl Eprint + AllocGlobal),
    path: &str,
    bytes: &[u8],
    read: &ReadItems,
    list: &mut String,
) -> Result<(), AllocError> {
    show_findings(rt, path, &unread_parts(rt.alloc(), bytes, read)?);
    show_losses(rt, path, &read.losses)?;
    let json = json_of(rt.alloc(), &read.items)?;
    push_items(list, inside(json.as_str()))
}

/// The CSL-JSON of a file in another form.
#[derive(Drop)]
pub struct ConvertedFile {
    pub json: String,
    /// What in the file can't be read, and its entries that are left out since another has their
    /// key.
    pub warnings: Vec<Finding>,
}

/// The CSL-JSON of a file of these bytes, where it is in another form.
///
/// # Errors
///
/// `Refused` where the file is no UTF-8; `OutOfMemory`.
pub fn converted(
    alloc: Global,
    path: &str,
    from: Option<&str>,
    bytes: &[u8],
) -> Result<Option<ConvertedFile>, CommandError> {
    match items_of(alloc, path, form_of(from, path, bytes), bytes)? {
        Some(read) => Ok(Some(converted_items(alloc, bytes, &read)?)),
        None => Ok(None),
    }
}

fn converted_items(
    alloc: Global,
    bytes: &[u8],
    read: &ReadItems,
) -> Result<ConvertedFile, AllocError> {
    let mut warnings = unread_parts(alloc, bytes, read)?;
    push_repeated_keys(alloc, &mut warnings, &read.losses)?;
    Ok(ConvertedFile {
        json: json_of(alloc, &read.items)?,
        warnings,
    })
}

/// Adds the entries that are left out, since another one has their key.
fn push_repeated_keys(
    alloc: Global,
    warnings: &mut Vec<Finding>,
    losses: &[Loss],
) -> Result<(), AllocError> {
    for loss in losses {
        if loss.field.as_str() == "id" {
            warnings.push(loss_warning(alloc, loss)?)?;
        }
    }
    Ok(())
}

/// The items of a file in another form than CSL-JSON.
fn items_of(
    alloc: Global,
    path: &str,
    form: ReferenceForm,
    bytes: &[u8],
) -> Result<Option<ReadItems>, CommandError> {
    if form == ReferenceForm::Json {
        return Ok(None);
    }
    match str::from_utf8(bytes) {
        Ok(text) => Ok(read_file(alloc, form, text, DEFAULT_LANGUAGE)?),
        Err(error) => {
            let byte = error.valid_up_to();
            let why = format!(in alloc; "no UTF-8 from byte {byte}")?;
            Err(refused(alloc, path, &why)?)
        }
    }
}

/// What in a file of these bytes can't be read.
fn unread_parts(alloc: Global, bytes: &[u8], read: &ReadItems) -> Result<Vec<Finding>, AllocError> {
    let mut findings = Vec::new(alloc);
    for fault in &read.faults {
        let place = FaultPlace::Line(Place {
            line: fault.line,
            column: fault.column,
        });
        findings.push(Finding::warning(alloc, place, &fault.reason)?)?;
    }
    if lacks_entries(read, bytes) {
        let what = "there is no entry in it";
        findings.push(Finding::warning(alloc, FaultPlace::Whole, &what)?)?;
    }
    Ok(findings)
}

/// Whether a file that isn't empty has no entry, not even one that can't be read.
fn lacks_entries(read: &ReadItems, bytes: &[u8]) -> bool {
    let text = str::from_utf8(bytes).unwrap_or("");
    read.items.is_empty() && read.faults.is_empty() && !text.trim().is_empty()
}

/// What an item doesn't have of its entry.
fn loss_warning(alloc: Global, loss: &Loss) -> Result<Finding, AllocError> {
    let place = FaultPlace::Field {
        entry: loss.entry.clone()?,
        field: loss.field.clone()?,
    };
    Finding::warning(alloc, place, &loss.reason)
}

/// Prints what the items of a file don't have of their entries.
fn show_losses(
    rt: &(impl Eprint + AllocGlobal),
    path: &str,
    losses: &[Loss],
) -> Result<(), AllocError> {
    for loss in losses {
        show_warning(rt, path, loss)?;
    }
    Ok(())
}

/// What stands in a list of JSON.
fn inside(json: &str) -> &str {
    let json = json.trim();
    json.strip_prefix('[')
        .and_then(|json| json.strip_suffix(']'))
        .unwrap_or("")
        .trim_matches('\n')
}

/// Appends items to a list.
fn push_items(list: &mut String, items: &str) -> Result<(), AllocError> {
    if items.is_empty() {
        return Ok(());
    }
    list.push_str(if list.len() == 1 { "\n" } else { ",\n" })?;
    list.push_str(items)
}

/// Appends the items of a file of CSL-JSON as they are.
fn push_json(
    alloc: Global,
    path: &str,
    bytes: &[u8],
    list: &mut String,
) -> Result<(), CommandError> {
    let whole = value_in(alloc, path, behind_mark(bytes))?;
    let items = whole.get("items").unwrap_or(&whole);
    let Value::Array(items) = items else {
        return Err(refused(alloc, path, &"CSL-JSON is a list of items")?);
    };
    for item in items {
        let item = format!(in alloc; "  {item}")?;
        push_items(list, item.as_str())?;
    }
    Ok(())
}

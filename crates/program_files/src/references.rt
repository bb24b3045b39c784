//! The references of a command.
use crate::entries::converted;
use crate::error::CommandError;
use crate::files::bytes_of;
use crate::items::{is_bibtex, item_refused, show_item_warnings};
use crate::json_causes::{behind_mark, json_refused};
use crate::reports::{refused, show_findings, show_warning};
use program_command::arguments::Options;
use reference_json::fault::ReferencesError;
use reference_json::reading::{ReadReferences, read_references, read_sound_references};
use reference_values::reference::References;
use std::alloc::Global;
use std::rt::Files;

/// What a file of BibTeX is that is named as one of JSON.
const BIBTEX: &str = "this is BibTeX or BibLaTeX: name the file .bib, or say `--from biblatex`";

/// The references of all files, in their order. What is odd in them is printed; of items with the
/// same id the last stays.
///
/// # Errors
///
/// Those of `bytes_of`; `Refused` where a file isn't of its form.
pub fn references_of(
    rt: &(impl Files + Input + Eprint + AllocGlobal),
    options: &Options,
) -> Result<References, CommandError> {
    let mut references = References::new(rt.alloc());
    for path in &options.references {
        let bytes = json_of_file(rt, path.as_str(), options.from.as_deref())?;
        let read = references_in(rt.alloc(), path.as_str(), &bytes, options.is_draft)?;
        show_item_warnings(rt, path.as_str(), &bytes, &read.warnings)?;
        add_all(rt, path.as_str(), &mut references, read.references)?;
    }
    Ok(references)
}

/// The CSL-JSON of a file, which may be in another form.
fn json_of_file(
    rt: &(impl Files + Input + Eprint + AllocGlobal),
    path: &str,
    from: Option<&str>,
) -> Result<Vec<u8>, CommandError> {
    let bytes = bytes_of(rt, path)?;
    match converted(rt.alloc(), path, from, &bytes)? {
        Some(converted) => {
            show_findings(rt, path, &converted.warnings);
            Ok(converted.json.into_bytes())
        }
        None => Ok(bytes),
    }
}

/// The references in a file of CSL-JSON of these bytes, behind a byte order mark or without one. Of
/// a draft, an item with a fault is left out, with a warning.
///
/// # Errors
///
/// `Refused` where it is no CSL-JSON; `OutOfMemory`.
pub fn references_in(
    alloc: Global,
    path: &str,
    bytes: &[u8],
    is_draft: bool,
) -> Result<ReadReferences, CommandError> {
    let bytes = behind_mark(bytes);
    let read = if is_draft {
        read_sound_references(alloc, bytes)
    } else {
        read_references(alloc, bytes)
    };
    match read {
        Ok(read) => Ok(read),
        Err(ReferencesError::OutOfMemory) => Err(CommandError::OutOfMemory),
        Err(ReferencesError::Fault(fault)) => Err(item_refused(alloc, path, bytes, &fault)?),
        Err(_) if is_bibtex(bytes) => Err(refused(alloc, path, &BIBTEX)?),
        Err(error) => Err(json_refused(alloc, path, bytes, &error)?),
    }
}

/// Adds the references of a file to those of the files before.
fn add_all(
    rt: &(impl Eprint + AllocGlobal),
    path: &str,
    references: &mut References,
    others: References,
) -> Result<(), CommandError> {
    for reference in others.into_vec() {
        let id = reference.id.as_str();
        if references.contains(id) {
            let warning = format!(in rt.alloc(); "`{id}` replaces the item of a file before")?;
            show_warning(rt, path, &warning)?;
        }
        references.insert(reference)?;
    }
    Ok(())
}

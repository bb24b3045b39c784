//! BibTeX, BibLaTeX and RIS: the items of each document in CSL-JSON, a line with how many of them are
//! references of CSL, lines for what was lost and for faults, and an empty line.
use crate::dump::Dump;
use crate::task::Task;
use reference_bibtex::reading::{BibForm, read_bibtex};
use reference_items::json::json_of;
use reference_items::reading::ReadItems;
use reference_json::reading::read_references;
use reference_ris::reading::read_ris;
use std::alloc::{AllocError, Global};

/// What a document is.
#[derive(Clone, Copy)]
pub enum EntryForm {
    BibTex,
    BibLatex,
    Ris,
}

/// The language of entries that say none, where the document doesn't begin with a line `lang TAG`.
const LANGUAGE: &str = "en-US";

fn read(alloc: Global, form: EntryForm, document: &[u8]) -> Result<ReadItems, AllocError> {
    let text = str::from_utf8(document).unwrap_or("");
    let (language, text) = match text.strip_prefix("lang ") {
        Some(behind) => behind.split_once('\n').unwrap_or((LANGUAGE, behind)),
        None => (LANGUAGE, text),
    };
    match form {
        EntryForm::BibTex => read_bibtex(alloc, text, BibForm::BibTex, language),
        EntryForm::BibLatex => read_bibtex(alloc, text, BibForm::BibLatex, language),
        EntryForm::Ris => read_ris(alloc, text),
    }
}

/// Appends what is said of a document.
pub fn say(
    rt: &(impl Eprint + AllocGlobal),
    task: Task,
    form: EntryForm,
    document: &[u8],
    dump: &mut Dump,
) {
    let outcome = read(rt.alloc(), form, document);
    task.tell(rt, "show");
    match outcome {
        Ok(read) => {
            dump_items(rt.alloc(), &read, dump);
            drop(read);
        }
        Err(AllocError) => dump.cut(),
    }
    dump.close();
}

/// How many items a document has.
pub fn count(alloc: Global, form: EntryForm, document: &[u8]) -> usize {
    match read(alloc, form, document) {
        Ok(read) => {
            let count = read.items.len();
            drop(read);
            count
        }
        Err(AllocError) => 0,
    }
}

fn dump_items(alloc: Global, read: &ReadItems, dump: &mut Dump) {
    match json_of(alloc, &read.items) {
        Ok(json) => {
            dump.push_str(json.as_str());
            dump_references(alloc, json.as_str(), dump);
        }
        Err(AllocError) => dump.cut(),
    }
    for loss in &read.losses {
        dump.shown_line("lost", loss);
    }
    for fault in &read.faults {
        dump.shown_line("fault", fault);
    }
}

/// Appends a line with the number of references that the items are, or with why they are none.
fn dump_references(alloc: Global, json: &str, dump: &mut Dump) {
    match read_references(alloc, json.as_bytes()) {
        Ok(read) => {
            dump.shown_line("references", &read.references.len());
            drop(read);
        }
        Err(error) => dump.shown_line("unread", &error),
    }
}

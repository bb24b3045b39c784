//! A document that was read, and what is done with it.

use crate::asking::{Asking, Seen};
use crate::by_table::by_table;
use crate::callers::print_callers;
use crate::calls::{answer_all, answer_alone, call_with_requests};
use crate::cites::print_cites;
use crate::contexts::print_contexts;
use crate::counting::by_counting;
use crate::ways::How;
use csl_driver::terms::TermTables;
use document_answer::document::Document;
use document_answer::error::RunError;
use document_requests::finders::found_styles;
use document_requests::requests::Targets;

/// Does what is asked with the document of this text.
pub fn answered(
    rt: &(impl Print + Eprint + AllocGlobal),
    text: &str,
    how: How,
) -> Result<Seen, RunError> {
    let _ = eprintln!(rt; "prepare");
    let document = Document::parse(rt.alloc(), text.as_bytes())?;
    let seen = match how {
        How::Context | How::Cites => in_first_style(rt, &document, how),
        How::Asked => by_counting(rt, text, &document),
        _ => answered_document(rt, text, &document, how),
    };
    drop(document);
    seen
}

/// Makes calls in the first style of a document, and answers none of its requests.
fn in_first_style(
    rt: &(impl Print + Eprint + AllocGlobal),
    document: &Document,
    how: How,
) -> Result<Seen, RunError> {
    let Some(named) = document.styles.as_slice().first() else {
        return Err(RunError::Document);
    };
    match how {
        How::Context => print_contexts(rt, &named.style)?,
        _ => print_cites(rt, &named.style, &document.locales, &document.entries)?,
    }
    Ok(Seen::Answer)
}

/// Does it with its styles, prepared.
fn answered_document(
    rt: &(impl Print + Eprint + AllocGlobal),
    text: &str,
    document: &Document,
    how: How,
) -> Result<Seen, RunError> {
    let found = found_styles(rt.alloc(), &document.styles, &document.job)?;
    let files = TermTables::new(rt.alloc(), &document.locales)?;
    let targets = Targets {
        styles: &found,
        entries: &document.entries,
        files: &files,
    };
    answered_over(rt, text, Asking { document, targets }, how)
}

/// Does it with what the document asks for.
fn answered_over<'e, 'f: 'e>(
    rt: &(impl Print + Eprint + AllocGlobal),
    text: &str,
    asking: Asking<'e, 'f>,
    how: How,
) -> Result<Seen, RunError> {
    match how {
        How::Alone => answer_alone(rt, asking),
        How::Passes | How::Equality => call_with_requests(rt, asking, how),
        How::Callers => print_callers(rt, asking),
        How::Table(way) => by_table(rt, text, asking, way),
        _ => answer_all(rt, asking, how),
    }
}

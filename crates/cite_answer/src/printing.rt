//! The text of an answer's JSON.
use crate::rendered::{note_of, rendered_citation, rendered_item, rendered_of};
use cite_host::answer::{Answer, ListedItem};
use cite_pieces::pieces::Pieces;
use cite_tasks::cites::Citation;
use cite_texts::quotes::QuoteMarks;
use std::alloc::{AllocError, Global};
use style_file::style::CslStyle;
use write_json::printing;

/// The answer to these citations as JSON, without spaces between its parts. Quotes have their marks
/// as text. In a style of notes each citation has the number of its note; where it names none, that
/// is its index among the citations, from 1.
///
/// # Errors
///
/// Where memory is refused.
pub fn print_answer(
    alloc: Global,
    style: &CslStyle,
    citations: &[Citation],
    answer: &Answer,
    marks: QuoteMarks<'_>,
) -> Result<String, AllocError> {
    let rendered = rendered_of(alloc, style, citations, answer, marks)?;
    printing::print_json(alloc, &rendered)
}

/// A citation as it stands in the JSON of `print_answer`: the one at this place among those of the
/// document.
///
/// # Errors
///
/// Where memory is refused.
pub fn print_citation(
    alloc: Global,
    style: &CslStyle,
    citations: &[Citation],
    place: usize,
    written: &Pieces,
    marks: QuoteMarks<'_>,
) -> Result<String, AllocError> {
    let note_number = note_of(style, citations, place);
    let citation = rendered_citation(alloc, note_number, written, marks)?;
    printing::print_citation(alloc, &citation)
}

/// An item as it stands in the JSON of `print_answer`.
///
/// # Errors
///
/// Where memory is refused.
pub fn print_item(
    alloc: Global,
    item: &ListedItem,
    marks: QuoteMarks<'_>,
) -> Result<String, AllocError> {
    printing::print_item(alloc, &rendered_item(alloc, item, marks)?)
}

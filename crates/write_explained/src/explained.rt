//! Answers whose texts say who wrote them.
use crate::lines::{Author, AuthoredText, authored_texts, push_authored, without_end};
use crate::origins::{Origin, Origins};
use cite_host::answer::{Answer, ListedItem};
use cite_pieces::pieces::Pieces;
use cite_program::program::ProgramError;
use cite_texts::quotes::QuoteMarks;
use std::alloc::{AllocError, Global};
use style_file::style::CslStyle;

/// An answer whose texts say who wrote them.
#[derive(Drop)]
pub struct ExplainedAnswer<'s> {
    pub(crate) citations: Vec<ExplainedText>,
    pub(crate) items: Vec<ExplainedItem>,
    pub(crate) of_citations: Origins<'s>,
    /// Absent where the style has no bibliography.
    pub(crate) of_items: Option<Origins<'s>>,
}

/// The parts of a text, in their order.
#[derive(Drop)]
pub(crate) struct ExplainedText {
    pub parts: Vec<AuthoredText>,
}

/// An item of the bibliography.
#[derive(Drop)]
pub(crate) struct ExplainedItem {
    pub id: String,
    pub text: ExplainedText,
}

/// What an explained answer (`Document::explained_answer`) in this style says of its texts. Those of
/// a citation are together its text, and so are those of an item, with its first field in front.
///
/// # Errors
///
/// `TooLong` where macros make a layout too long; `OutOfMemory`.
pub fn explained<'s>(
    alloc: Global,
    style: &'s CslStyle,
    answer: &Answer,
    marks: QuoteMarks<'_>,
) -> Result<ExplainedAnswer<'s>, ProgramError> {
    let citations = explained_citations(alloc, &answer.citations, marks)?;
    let items = match &answer.bibliography {
        Some(items) => explained_items(alloc, items, marks)?,
        None => Vec::new(alloc),
    };
    let of_citations = Origins::of_layout(alloc, style, &style.citation.layout)?;
    let of_items = items_origins(alloc, style)?;
    Ok(ExplainedAnswer {
        citations,
        items,
        of_citations,
        of_items,
    })
}

/// The elements of the bibliography's layout, if the style has one.
fn items_origins<'s>(
    alloc: Global,
    style: &'s CslStyle,
) -> Result<Option<Origins<'s>>, ProgramError> {
    match &style.bibliography {
        Some(section) => Ok(Some(Origins::of_layout(alloc, style, &section.layout)?)),
        None => Ok(None),
    }
}

fn explained_citations(
    alloc: Global,
    citations: &[Pieces],
    marks: QuoteMarks<'_>,
) -> Result<Vec<ExplainedText>, AllocError> {
    let mut explained = Vec::new(alloc);
    for citation in citations {
        let parts = authored_texts(alloc, citation, marks)?;
        explained.push(ExplainedText { parts })?;
    }
    Ok(explained)
}

fn explained_items(
    alloc: Global,
    items: &[ListedItem],
    marks: QuoteMarks<'_>,
) -> Result<Vec<ExplainedItem>, AllocError> {
    let mut explained = Vec::new(alloc);
    for item in items {
        let parts = item_parts(alloc, item, marks)?;
        explained.push(ExplainedItem {
            id: item.id.clone()?,
            text: ExplainedText { parts },
        })?;
    }
    Ok(explained)
}

/// The parts of an item: of its first field, then a space, then of its content.
fn item_parts(
    alloc: Global,
    item: &ListedItem,
    marks: QuoteMarks<'_>,
) -> Result<Vec<AuthoredText>, AllocError> {
    let content = authored_texts(alloc, &item.content, marks)?;
    let Some(field) = &item.first_field else {
        return Ok(content);
    };
    let field = authored_texts(alloc, field, marks)?;
    let mut parts = without_end(alloc, field)?;
    if content.is_empty() {
        return Ok(parts);
    }
    push_authored(alloc, &mut parts, Author::Layout, ' ')?;
    let mut content = content;
    parts.append(&mut content)?;
    Ok(parts)
}

/// The element of the style that an author is; none where the document itself wrote.
pub(crate) fn origin_of(origins: &Origins<'_>, author: Author) -> Option<Origin> {
    match author {
        Author::Layout => Some(origins.layout()),
        Author::Step(step) => Some(origins.of_step(step)),
        Author::Document => None,
    }
}

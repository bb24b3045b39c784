//! Answers with the driver's trees.
use cite_host::answer::{Answer, ListedItem};
use cite_pieces::pieces::Pieces;
use cite_tasks::cites::Citation;
use cite_texts::quotes::QuoteMarks;
use cite_trees::shown::shown_tree;
use csl_base::elem::{Elem, ElemChild, ElemChildren};
use csl_base::seq::Seq;
use csl_base::style as tree;
use csl_base::text::Text;
use driver_assembly::rendered::{
    BibliographyItem, Rendered, RenderedBibliography, RenderedCitation,
};
use std::alloc::{AllocError, Global};
use std::num::NonZeroI16;
use style_file::sections::{BibliographyOptions, SecondFieldAlign};
use style_file::style::{CslStyle, StyleClass};

/// The answer with trees in place of streams.
///
/// # Errors
///
/// Where memory is refused.
pub(crate) fn rendered_of(
    alloc: Global,
    style: &CslStyle,
    citations: &[Citation],
    answer: &Answer,
    marks: QuoteMarks<'_>,
) -> Result<Rendered, AllocError> {
    let mut rendered = Vec::new(alloc);
    for (place, citation) in answer.citations.iter().enumerate() {
        let note_number = note_of(style, citations, place);
        rendered.push(rendered_citation(alloc, note_number, citation, marks)?)?;
    }
    let bibliography = match (&answer.bibliography, &style.bibliography) {
        (Some(items), Some(section)) => {
            let items = listed_items(alloc, items, marks)?;
            Some(with_options(&section.options, items))
        }
        _ => None,
    };
    Ok(Rendered {
        bibliography,
        citations: Seq::new(rendered),
    })
}

/// A citation with its tree, in the note of this number.
///
/// # Errors
///
/// Where memory is refused.
pub(crate) fn rendered_citation(
    alloc: Global,
    note_number: Option<usize>,
    citation: &Pieces,
    marks: QuoteMarks<'_>,
) -> Result<RenderedCitation, AllocError> {
    Ok(RenderedCitation {
        note_number,
        citation: shown_tree(alloc, citation, marks)?,
    })
}

/// The number of the note of the citation at this place, in a style of notes.
pub(crate) fn note_of(style: &CslStyle, citations: &[Citation], place: usize) -> Option<usize> {
    if style.class != StyleClass::Note {
        return None;
    }
    let told = match citations.get(place) {
        Some(citation) => citation.note,
        None => None,
    };
    Some(told.unwrap_or(place.saturating_add(1)))
}

/// The node of a stream.
fn shown_node(
    alloc: Global,
    pieces: &Pieces,
    marks: QuoteMarks<'_>,
) -> Result<ElemChild, AllocError> {
    let children = shown_tree(alloc, pieces, marks)?;
    let mut nodes = children.into_vec();
    let last = nodes.pop();
    match last {
        Some(only) if nodes.is_empty() => Ok(only),
        Some(last) => {
            nodes.push(last)?;
            Ok(element_of(nodes))
        }
        None => Ok(element_of(nodes)),
    }
}

/// An element of these children.
fn element_of(nodes: Vec<ElemChild>) -> ElemChild {
    ElemChild::Elem(Elem {
        children: ElemChildren(nodes),
        display: None,
        meta: None,
    })
}

fn listed_items(
    alloc: Global,
    items: &[ListedItem],
    marks: QuoteMarks<'_>,
) -> Result<Vec<BibliographyItem>, AllocError> {
    let mut listed = Vec::new(alloc);
    for item in items {
        listed.push(rendered_item(alloc, item, marks)?)?;
    }
    Ok(listed)
}

/// An item with its trees.
///
/// # Errors
///
/// Where memory is refused.
pub(crate) fn rendered_item(
    alloc: Global,
    item: &ListedItem,
    marks: QuoteMarks<'_>,
) -> Result<BibliographyItem, AllocError> {
    let first_field = match &item.first_field {
        Some(field) => Some(shown_node(alloc, field, marks)?),
        None => None,
    };
    Ok(BibliographyItem {
        key: Text::new(item.id.clone()?),
        first_field,
        content: shown_tree(alloc, &item.content, marks)?,
    })
}

/// A bibliography of these items, with what the style says of their lines.
fn with_options(
    options: &BibliographyOptions,
    items: Vec<BibliographyItem>,
) -> RenderedBibliography {
    RenderedBibliography {
        hanging_indent: options.hanging_indent,
        second_field_align: options.second_field_align.map(align_of),
        line_spacing: line_spacing_of(options.line_spacing),
        entry_spacing: i16::try_from(options.entry_spacing).unwrap_or(i16::MAX),
        items: Seq::new(items),
    }
}

fn align_of(align: SecondFieldAlign) -> tree::SecondFieldAlign {
    match align {
        SecondFieldAlign::Flush => tree::SecondFieldAlign::Flush,
        SecondFieldAlign::Margin => tree::SecondFieldAlign::Margin,
    }
}

/// The distance of lines: a single one where there is none, and as much as a short has where it is
/// more.
fn line_spacing_of(lines: u32) -> NonZeroI16 {
    let lines = i16::try_from(lines).unwrap_or(i16::MAX);
    match NonZeroI16::new(lines) {
        Some(spacing) => spacing,
        None => single(),
    }
}

fn single() -> NonZeroI16 {
    NonZeroI16::new(1).unwrap()
}

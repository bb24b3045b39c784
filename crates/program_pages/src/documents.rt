//! Answers to documents of `cite_run`, as answers in a style.
use crate::page::ListLayout;
use cite_host::answer::{Answer, ListedItem};
use cite_pieces::piece::{Mark, Wrap};
use cite_pieces::pieces::Pieces;
use cite_texts::addresses::url_address;
use cite_texts::quotes::QuoteMarks;
use cite_trees::streams::stream_of_child;
use csl_base::elem::{Elem, ElemChild, ElemChildren, ElemMeta};
use csl_base::formatting::Formatted;
use csl_base::{formatting as tree, style};
use driver_assembly::rendered::{BibliographyItem, Rendered, RenderedBibliography};
use std::alloc::{AllocError, Global};
use style_file::formatting::Display;
use style_file::sections::SecondFieldAlign;

/// The quotation marks of documents: none, since their trees have them as text.
pub fn no_marks<'m>() -> QuoteMarks<'m> {
    QuoteMarks {
        open: "",
        close: "",
        inner_open: "",
        inner_close: "",
    }
}

/// The answer with streams in place of trees. What a tree leaves to its caller is left out.
///
/// # Errors
///
/// Where memory is refused.
pub fn answer_of(alloc: Global, rendered: &Rendered) -> Result<Answer, AllocError> {
    let mut citations = Vec::new(alloc);
    for citation in rendered.citations.as_slice() {
        citations.push(stream_of(alloc, &citation.citation)?)?;
    }
    let bibliography = match &rendered.bibliography {
        Some(bibliography) => Some(items_of(alloc, bibliography)?),
        None => None,
    };
    Ok(Answer {
        citations,
        bibliography,
    })
}

/// The layout of a bibliography.
pub fn layout_of(bibliography: &RenderedBibliography) -> ListLayout {
    ListLayout {
        hanging_indent: bibliography.hanging_indent,
        second_field_align: bibliography.second_field_align.map(align_of),
        line_spacing: i64::from(bibliography.line_spacing.get()),
        entry_spacing: i64::from(bibliography.entry_spacing),
    }
}

fn align_of(align: style::SecondFieldAlign) -> SecondFieldAlign {
    match align {
        style::SecondFieldAlign::Flush => SecondFieldAlign::Flush,
        style::SecondFieldAlign::Margin => SecondFieldAlign::Margin,
    }
}

fn items_of(
    alloc: Global,
    bibliography: &RenderedBibliography,
) -> Result<Vec<ListedItem>, AllocError> {
    let mut items = Vec::new(alloc);
    for item in bibliography.items.as_slice() {
        items.push(item_of(alloc, item)?)?;
    }
    Ok(items)
}

fn item_of(alloc: Global, item: &BibliographyItem) -> Result<ListedItem, AllocError> {
    let first_field = match &item.first_field {
        Some(field) => {
            let mut stream = Pieces::new(alloc);
            push_child(alloc, &mut stream, field)?;
            Some(stream)
        }
        None => None,
    };
    Ok(ListedItem {
        id: String::from_str(alloc, item.key.as_str())?,
        first_field,
        content: stream_of(alloc, &item.content)?,
    })
}

/// The stream of a tree, in which entries are marked. Unlike the trees of hosts, it has no quotes:
/// an element that stands for nothing is what is in it.
fn stream_of(alloc: Global, tree: &ElemChildren) -> Result<Pieces, AllocError> {
    let mut stream = Pieces::new(alloc);
    push_children(alloc, &mut stream, tree)?;
    Ok(stream)
}

#[cycle(stream)]
fn push_children(
    alloc: Global,
    stream: &mut Pieces,
    children: &ElemChildren,
) -> Result<(), AllocError> {
    for child in &children.0 {
        push_child(alloc, stream, child)?;
    }
    Ok(())
}

#[cycle(stream)]
fn push_child(alloc: Global, stream: &mut Pieces, child: &ElemChild) -> Result<(), AllocError> {
    match child {
        ElemChild::Elem(elem) => push_elem(alloc, stream, elem),
        ElemChild::Link { text, url } => push_link(alloc, stream, text, url.as_str()),
        _ => stream.push_pieces(stream_of_child(alloc, child)?),
    }
}

#[cycle(stream)]
fn push_elem(alloc: Global, stream: &mut Pieces, elem: &Elem) -> Result<(), AllocError> {
    let mut inside = Pieces::new(alloc);
    push_children(alloc, &mut inside, &elem.children)?;
    if let Some(ElemMeta::Entry(place)) = &elem.meta {
        inside = wrapped(alloc, Wrap::Mark(Mark::Entry(*place)), inside)?;
    }
    match elem.display {
        Some(display) => stream.push_wrapped(Wrap::Display(display_of(display)), inside),
        None => stream.push_pieces(inside),
    }
}

fn wrapped(alloc: Global, wrap: Wrap, inside: Pieces) -> Result<Pieces, AllocError> {
    let mut stream = Pieces::new(alloc);
    stream.push_wrapped(wrap, inside)?;
    Ok(stream)
}

/// Adds a text that leads to a URL, if that is an address to which texts lead.
fn push_link(
    alloc: Global,
    stream: &mut Pieces,
    text: &Formatted,
    url: &str,
) -> Result<(), AllocError> {
    let text = stream_of_child(alloc, &ElemChild::Text(text.clone()?))?;
    match url_address(alloc, url)? {
        Some(address) => stream.push_wrapped(Wrap::Link(address), text),
        None => stream.push_pieces(text),
    }
}

fn display_of(display: tree::Display) -> Display {
    match display {
        tree::Display::Block => Display::Block,
        tree::Display::LeftMargin => Display::LeftMargin,
        tree::Display::RightInline => Display::RightInline,
        tree::Display::Indent => Display::Indent,
    }
}

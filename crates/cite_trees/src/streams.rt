//! Streams of trees.
use crate::others::other_of;
use cite_pieces::formatting::NOTHING_ASKED;
use cite_pieces::piece::{QuoteSource, Wrap};
use cite_pieces::pieces::Pieces;
use csl_base::elem::{Elem, ElemChild, ElemChildren, ElemMeta};
use csl_base::formatting as tree;
use csl_base::formatting::Formatted;
use std::alloc::{AllocError, Global};
use std::mem::replace;
use style_file::formatting as file;

/// The stream of a tree. What a tree leaves to its caller is left out, and so are its marks, but for
/// those that aren't the driver's.
///
/// # Errors
///
/// Where memory is refused.
pub fn stream_of(alloc: Global, tree: &ElemChildren) -> Result<Pieces, AllocError> {
    let mut stream = Pieces::new(alloc);
    push_children(alloc, &mut stream, tree)?;
    Ok(stream)
}

/// The stream of a child of a tree.
///
/// # Errors
///
/// Where memory is refused.
pub fn stream_of_child(alloc: Global, child: &ElemChild) -> Result<Pieces, AllocError> {
    let mut stream = Pieces::new(alloc);
    push_child(alloc, &mut stream, child)?;
    Ok(stream)
}

/// A cite of a citation.
#[derive(Drop)]
pub struct CiteStream {
    /// Its place in the items of its request.
    pub place: usize,
    /// What stands between it and the cite before it; in front of the first, what stands before it.
    pub before: Pieces,
    pub cite: Pieces,
}

/// The cites of a citation in their order. What follows the last is left out: the affixes
/// of a layout are written by the host.
///
/// # Errors
///
/// Where memory is refused.
pub fn cites_of(alloc: Global, citation: &ElemChildren) -> Result<Vec<CiteStream>, AllocError> {
    let mut cites = Vec::new(alloc);
    let mut between = Pieces::new(alloc);
    for child in &citation.0 {
        match cite_place(child) {
            Some(place) => {
                let before = replace(&mut between, Pieces::new(alloc));
                let cite = stream_of_child(alloc, child)?;
                cites.push(CiteStream {
                    place,
                    before,
                    cite,
                })?;
            }
            None => push_child(alloc, &mut between, child)?,
        }
    }
    Ok(cites)
}

/// The place of a cite in the items of its request, if a child is one.
fn cite_place(child: &ElemChild) -> Option<usize> {
    match child {
        ElemChild::Elem(elem) => match &elem.meta {
            Some(ElemMeta::Entry(place)) => Some(*place),
            _ => None,
        },
        _ => None,
    }
}

#[cycle(stream)]
fn push_children(
    alloc: Global,
    stream: &mut Pieces,
    children: &ElemChildren,
) -> Result<(), AllocError> {
    let mut link = OpenLink::new(alloc);
    for child in &children.0 {
        match child {
            ElemChild::Link { text, url } => link.push(stream, text, url.as_str())?,
            _ => {
                link.end(stream)?;
                push_child(alloc, stream, child)?;
            }
        }
    }
    link.end(stream)
}

/// A link that neighbours may share: those that lead to the same address.
#[derive(Drop)]
struct OpenLink<'t> {
    alloc: Global,
    url: &'t str,
    inside: Pieces,
}

impl<'t> OpenLink<'t> {
    fn new(alloc: Global) -> OpenLink<'t> {
        OpenLink {
            alloc,
            url: "",
            inside: Pieces::new(alloc),
        }
    }

    /// Adds a text that leads to an address.
    fn push(
        &mut self,
        stream: &mut Pieces,
        text: &Formatted,
        url: &'t str,
    ) -> Result<(), AllocError> {
        if self.url != url {
            self.end(stream)?;
            self.url = url;
        }
        push_formatted(self.alloc, &mut self.inside, text)
    }

    /// Adds what is in the link to a stream.
    fn end(&mut self, stream: &mut Pieces) -> Result<(), AllocError> {
        if self.inside.as_slice().is_empty() {
            return Ok(());
        }
        let inside = replace(&mut self.inside, Pieces::new(self.alloc));
        let url = String::from_str(self.alloc, self.url)?;
        stream.push_wrapped(Wrap::Link(url), inside)
    }
}

#[cycle(stream)]
fn push_child(alloc: Global, stream: &mut Pieces, child: &ElemChild) -> Result<(), AllocError> {
    match child {
        ElemChild::Text(text) => push_formatted(alloc, stream, text),
        ElemChild::Elem(elem) => push_elem(alloc, stream, elem),
        ElemChild::Markup(text) => stream.push_text(String::from_str(alloc, text.as_str())?),
        ElemChild::Link { text, url } => {
            let mut inside = Pieces::new(alloc);
            push_formatted(alloc, &mut inside, text)?;
            let url = String::from_str(alloc, url.as_str())?;
            stream.push_wrapped(Wrap::Link(url), inside)
        }
        ElemChild::Transparent { .. } => Ok(()),
    }
}

#[cycle(stream)]
fn push_elem(alloc: Global, stream: &mut Pieces, elem: &Elem) -> Result<(), AllocError> {
    let wrap = match (&elem.display, &elem.meta) {
        (Some(display), _) => Some(Wrap::Display(file_display(*display))),
        (None, None) => Some(Wrap::Quotes(QuoteSource::Style)),
        (None, Some(meta)) => other_of(meta).map(Wrap::Mark),
    };
    let Some(wrap) = wrap else {
        return push_children(alloc, stream, &elem.children);
    };
    let mut inside = Pieces::new(alloc);
    push_children(alloc, &mut inside, &elem.children)?;
    stream.push_wrapped(wrap, inside)
}

fn push_formatted(
    alloc: Global,
    stream: &mut Pieces,
    formatted: &Formatted,
) -> Result<(), AllocError> {
    let text = String::from_str(alloc, formatted.text.as_str())?;
    let asked = asked_of(formatted.formatting);
    if asked == NOTHING_ASKED {
        return stream.push_text(text);
    }
    let mut inside = Pieces::new(alloc);
    inside.push_text(text)?;
    stream.push_wrapped(Wrap::Formatting(asked), inside)
}

fn file_display(display: tree::Display) -> file::Display {
    match display {
        tree::Display::Block => file::Display::Block,
        tree::Display::LeftMargin => file::Display::LeftMargin,
        tree::Display::RightInline => file::Display::RightInline,
        tree::Display::Indent => file::Display::Indent,
    }
}

/// What is asked for around a text of this formatting, in text of none.
fn asked_of(formatting: tree::Formatting) -> file::Formatting {
    file::Formatting {
        font_style: match formatting.font_style {
            tree::FontStyle::Normal => None,
            tree::FontStyle::Italic => Some(file::FontStyle::Italic),
        },
        font_variant: match formatting.font_variant {
            tree::FontVariant::Normal => None,
            tree::FontVariant::SmallCaps => Some(file::FontVariant::SmallCaps),
        },
        font_weight: match formatting.font_weight {
            tree::FontWeight::Normal => None,
            tree::FontWeight::Bold => Some(file::FontWeight::Bold),
        },
        text_decoration: match formatting.text_decoration {
            tree::TextDecoration::None => None,
            tree::TextDecoration::Underline => Some(file::TextDecoration::Underline),
        },
        vertical_align: match formatting.vertical_align {
            tree::VerticalAlign::None | tree::VerticalAlign::Baseline => None,
            tree::VerticalAlign::Superscript => Some(file::VerticalAlign::Superscript),
            tree::VerticalAlign::Subscript => Some(file::VerticalAlign::Subscript),
        },
    }
}

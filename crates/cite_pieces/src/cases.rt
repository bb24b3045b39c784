//! What an element changes in the texts of its content (CSL 1.0.2, text-case and strip-periods).
ghost use Rattle.std.specs.Prelude.{◌≡◌, [], ◌∷◌, ◌++◌, IfOk, OnOk};
ghost use Rattle.cite_pieces.specs.Nesting.{edges};

use crate::piece::{Piece, Wrap};
use crate::pieces::Pieces;
use cite_texts::cases::{Language, Recasing, Span};
use reference_values::rich_text::Baseline;
use std::alloc::{AllocError, Global};
use style_file::formatting::{FontVariant, TextCase, VerticalAlign};

/// What stands for the mark before a quote, which is not known yet, where words are looked for.
const QUOTE: &str = "“";

/// The stream in this case. A word may reach over several texts. What is set `nocase`, in small
/// capitals, or above or below the line stays as it is.
///
/// # Errors
///
/// Where memory is refused.
pub(crate) fn in_case(
    alloc: Global,
    pieces: Pieces,
    case: TextCase,
    language: Language,
) -> Result<Pieces, AllocError>
    ensures edges { IfOk result (λ out. edges out.pieces.items ≡ edges pieces.pieces.items) }
{
    let spoken = spoken_text(alloc, &pieces)?;
    let recasing = Recasing::new(alloc, spoken.text.as_str(), &spoken.kept, case, language)?;
    let mut out = Pieces::new(alloc);
    let mut start = 0usize;
    for piece in pieces.into_vec() {
        let length = spoken_length(&piece);
        push_in_case(alloc, &mut out, piece, &recasing, start)?;
        start = start.saturating_add(length);
    }
    Ok(out)
}

/// Adds a piece in its case, which begins so far in the texts where words are looked for.
fn push_in_case(
    alloc: Global,
    out: &mut Pieces,
    piece: Piece,
    recasing: &Recasing,
    start: usize,
) -> Result<(), AllocError>
    ensures { OnOk result (edges out.new.pieces.items
        ≡ edges out.old.pieces.items ++ edges (piece ∷ [])) }
{
    match piece {
        Piece::Text(text) => out.push_text(recasing.apply(alloc, text.as_str(), start)?),
        Piece::Open(wrap) => out.open(wrap),
        Piece::Close => out.close(),
    }
}

/// How long a piece is in the texts where words are looked for.
fn spoken_length(piece: &Piece) -> usize {
    match piece {
        Piece::Text(text) => text.len(),
        Piece::Open(wrap) => mark_before(wrap).len(),
        Piece::Close => 0,
    }
}

/// The stream without the periods of its texts.
///
/// # Errors
///
/// Where memory is refused.
pub(crate) fn without_periods(alloc: Global, pieces: Pieces) -> Result<Pieces, AllocError>
    ensures edges { IfOk result (λ out. edges out.pieces.items ≡ edges pieces.pieces.items) }
{
    let mut out = Pieces::new(alloc);
    for piece in pieces.into_vec() {
        push_without_periods(alloc, &mut out, piece)?;
    }
    Ok(out)
}

fn push_without_periods(alloc: Global, out: &mut Pieces, piece: Piece) -> Result<(), AllocError>
    ensures { OnOk result (edges out.new.pieces.items
        ≡ edges out.old.pieces.items ++ edges (piece ∷ [])) }
{
    match piece {
        Piece::Text(text) => out.push_text(text.as_str().replace(alloc, ".", "")?),
        Piece::Open(wrap) => out.open(wrap),
        Piece::Close => out.close(),
    }
}

/// The texts of a stream as one, and which parts of it stay as they are.
#[derive(Drop)]
struct Spoken {
    text: String,
    kept: Vec<Span>,
    /// Where the part begins that stays, and how many wraps are open in it, with that around it.
    start: usize,
    inside: usize,
}

fn spoken_text(alloc: Global, pieces: &Pieces) -> Result<Spoken, AllocError> {
    let mut spoken = Spoken {
        text: String::new(alloc),
        kept: Vec::new(alloc),
        start: 0,
        inside: 0,
    };
    for piece in pieces.as_slice() {
        match piece {
            Piece::Text(more) => spoken.text.push_str(more.as_str())?,
            Piece::Open(wrap) => spoken.open(wrap)?,
            Piece::Close => spoken.close()?,
        }
    }
    Ok(spoken)
}

impl Spoken {
    fn open(&mut self, wrap: &Wrap) -> Result<(), AllocError> {
        self.text.push_str(mark_before(wrap))?;
        if self.inside > 0 {
            self.inside = self.inside.saturating_add(1);
        } else if keeps(wrap) {
            self.inside = 1;
            self.start = self.text.len();
        }
        Ok(())
    }

    fn close(&mut self) -> Result<(), AllocError> {
        if self.inside == 1 {
            let start = self.start;
            let end = self.text.len();
            self.kept.push(Span { start, end })?;
        }
        self.inside = self.inside.saturating_sub(1);
        Ok(())
    }
}

fn mark_before(wrap: &Wrap) -> &'static str {
    match wrap {
        Wrap::Quotes(_) => QUOTE,
        _ => "",
    }
}

/// Whether what is inside keeps its case.
fn keeps(wrap: &Wrap) -> bool {
    match wrap {
        Wrap::Markup(style) => {
            style.keeps_case || style.small_caps || style.baseline != Baseline::Normal
        }
        Wrap::Formatting(formatting) => {
            formatting.font_variant == Some(FontVariant::SmallCaps)
                || formatting.vertical_align == Some(VerticalAlign::Superscript)
                || formatting.vertical_align == Some(VerticalAlign::Subscript)
        }
        Wrap::Quotes(_) | Wrap::Link(_) | Wrap::Display(_) | Wrap::Mark(_) => false,
    }
}

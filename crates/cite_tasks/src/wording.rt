//! The words that stand around cites, and what of cites stands alone.
use crate::cites::Cite;
use cite_pieces::output::{Element, Output, written};
use cite_pieces::piece::{Mark, Piece, Wrap};
use cite_pieces::pieces::Pieces;
use cite_texts::cases::Language;
use cite_walk::cite::step_mark;
use cite_walk::texts::TERM;
use reference_values::rich_text::RichText;
use std::alloc::{AllocError, Global};
use style_file::formatting::TextCase;

/// The names that stand first in a cite, with their label, or what stands in for them.
pub(crate) fn author_alone(alloc: Global, pieces: Pieces) -> Result<Pieces, AllocError> {
    let Some(step) = first_author(pieces.as_slice()) else {
        return Ok(pieces);
    };
    let is_explained = pieces.has_mark(step_mark(step));
    let author = pieces.only_mark(alloc, Mark::Author(step))?;
    if !is_explained {
        return Ok(author);
    }
    let mut explained = Pieces::new(alloc);
    explained.push_wrapped(Wrap::Mark(step_mark(step)), author)?;
    Ok(explained)
}

/// The step of the first names in a stream, or of what stands in for names.
fn first_author(pieces: &[Piece]) -> Option<usize> {
    for piece in pieces {
        if let Piece::Open(Wrap::Mark(Mark::Author(step))) = piece {
            return Some(*step);
        }
    }
    None
}

/// Whether a cite, which stands at this place in its note, begins a sentence.
pub(crate) fn begins_sentence(cite: &Cite, own: usize) -> bool {
    let prefix = cite.prefix.as_str().trim_end();
    if prefix.is_empty() {
        own == 0
    } else {
        prefix.ends_with('.') && prefix.contains(' ')
    }
}

/// A cite with a capital in front, where it begins with a term.
pub(crate) fn with_capital_term(alloc: Global, pieces: Pieces) -> Result<Pieces, AllocError> {
    if !begins_with_term(&pieces) {
        return Ok(pieces);
    }
    with_capital(alloc, pieces)
}

/// A stream with a capital in front.
fn with_capital(alloc: Global, pieces: Pieces) -> Result<Pieces, AllocError> {
    let element = Element {
        text_case: Some(TextCase::CapitalizeFirst),
        ..Element::PLAIN
    };
    written(alloc, element, pieces, Language::Other)
}

/// Whether the first text of a stream is of a term.
fn begins_with_term(pieces: &Pieces) -> bool {
    let mut is_term = false;
    for piece in pieces.as_slice() {
        match piece {
            Piece::Open(Wrap::Mark(mark)) => is_term = is_term || *mark == TERM,
            Piece::Open(_) => {}
            Piece::Text(_) | Piece::Close => return is_term,
        }
    }
    false
}

/// The words that stand around a cite, with markup.
#[derive(Clone, Copy)]
pub struct Around<'c> {
    pub prefix: &'c str,
    pub suffix: &'c str,
}

/// A cite between the words that stand around it. Where these have no space of their own beside it,
/// one is put in. Words that begin a note begin with a capital.
///
/// # Errors
///
/// Where memory is refused.
pub fn with_affixes(
    alloc: Global,
    pieces: Pieces,
    around: Around<'_>,
    begins_note: bool,
) -> Result<Pieces, AllocError> {
    let words = around.prefix.trim_end_matches(' ');
    let prefix = of_markup(alloc, words)?;
    let mut out = if begins_note {
        with_capital(alloc, prefix)?
    } else {
        prefix
    };
    if words.len() < around.prefix.len() || out.last_char().is_some_and(needs_space_behind) {
        out.push_str(alloc, " ")?;
    }
    out.push_pieces(pieces)?;
    let suffix = of_markup(alloc, around.suffix)?;
    if suffix.first_char().is_some_and(needs_space_before) {
        out.push_str(alloc, " ")?;
    }
    out.push_pieces(suffix)?;
    Ok(out)
}

fn needs_space_behind(last: char) -> bool {
    last.is_alphanumeric() || matches!(last, '.' | ',' | ';' | ':' | '!' | '?' | ')' | ']')
}

fn needs_space_before(first: char) -> bool {
    first.is_alphanumeric() || matches!(first, '(' | '[')
}

fn of_markup(alloc: Global, markup: &str) -> Result<Pieces, AllocError> {
    if markup.is_empty() {
        return Ok(Pieces::new(alloc));
    }
    let text = RichText::of_markup(alloc, markup)?;
    let mut output = Output::new(alloc, Language::Other);
    output.push_rich(&text)?;
    output.finish()
}

//! Quotes get their marks.
ghost use Rattle.std.specs.Prelude.{◌≡◌, ◌-◌, [], ◌∷◌, ◌++◌, IfOk, OnOk, Some, length};
ghost use Rattle.cite_pieces.specs.Marked.{IsMarked, wraps};
ghost use Rattle.cite_pieces.specs.Nesting.{IsNested, depth, edges};

use crate::piece::{Piece, QuoteSource, Wrap};
use crate::pieces::Pieces;
use cite_texts::quotes::QuoteMarks;
use std::alloc::{AllocError, Global};

/// The stream with quotation marks as text in place of quotes. Quotes inside quotes have the inner
/// marks, and so on in turn.
///
/// # Errors
///
/// Where memory is refused.
pub fn with_marks(
    alloc: Global,
    pieces: &Pieces,
    marks: QuoteMarks<'_>,
) -> Result<Pieces, AllocError>
    ensures nested { IfOk result (λ out. IsNested out.pieces.items) }
{
    marked(alloc, pieces, marks, Which::All)
}

/// The stream with quotation marks as text in place of those quotes of fields that stand in no
/// quotes of the style, and don't end their field: no punctuation moves into them.
///
/// # Errors
///
/// Where memory is refused.
pub fn with_field_marks(
    alloc: Global,
    pieces: Pieces,
    marks: QuoteMarks<'_>,
) -> Result<Pieces, AllocError>
    ensures nested { IsNested pieces.pieces.items →
        IfOk result (λ out. IsNested out.pieces.items) }
{
    if pieces.as_slice().iter().any(opens_field_quotes) {
        marked(alloc, &pieces, marks, Which::OfFields)
    } else {
        Ok(pieces)
    }
}

fn opens_field_quotes(piece: &Piece) -> bool {
    matches!(piece, Piece::Open(Wrap::Quotes(QuoteSource::Field)))
}

/// Which quotes get marks.
#[derive(Clone, Copy, PartialEq, Eq)]
enum Which {
    All,
    /// Those of fields in no quotes of the style, but for those that end a field.
    OfFields,
}

fn marked(
    alloc: Global,
    pieces: &Pieces,
    marks: QuoteMarks<'_>,
    which: Which,
) -> Result<Pieces, AllocError>
    ensures nested { IfOk result (λ out. IsNested out.pieces.items) }
{
    let mut marker = Marker {
        alloc,
        which,
        marks,
        out: Pieces::new(alloc),
        open: Vec::new(alloc),
    };
    for piece in pieces.as_slice() {
        marker.read(piece)?;
    }
    for _ in 0..marker.open.len() {
        marker.close()?;
    }
    Ok(marker.out)
}

/// A stream whose quotes get their marks.
#[derive(Drop)]
struct Marker<'m> {
    alloc: Global,
    which: Which,
    /// The marks of the next quotes.
    marks: QuoteMarks<'m>,
    out: Pieces,
    open: Vec<Opened>,
}

/// What ends with a wrap.
#[derive(Clone, Copy, PartialEq, Eq)]
enum Opened {
    /// Quotes that got marks.
    Marks,
    /// Quotes that stay what they are.
    Quotes,
    Other,
}

impl Marker<'_> {
    fn read(&mut self, piece: &Piece) -> Result<(), AllocError>
        ensures { IsMarked self.old → OnOk result (IsMarked self.new) }
    {
        match piece {
            Piece::Text(text) => self.out.push_str(self.alloc, text.as_str()),
            Piece::Open(wrap) => self.open(wrap),
            Piece::Close => self.close(),
        }
    }

    fn open(&mut self, wrap: &Wrap) -> Result<(), AllocError>
        ensures { IsMarked self.old → OnOk result (IsMarked self.new) }
    {
        match wrap {
            Wrap::Quotes(source) if self.gives_marks(*source) => self.open_marks(),
            Wrap::Quotes(_) => self.open_wrap(wrap, Opened::Quotes),
            _ => self.open_wrap(wrap, Opened::Other),
        }
    }

    fn open_marks(&mut self) -> Result<(), AllocError>
        ensures { IsMarked self.old → OnOk result (IsMarked self.new) }
    {
        self.out.push_str(self.alloc, self.marks.open)?;
        self.marks = self.marks.inside();
        self.open.push(Opened::Marks)?;
        Ok(())
    }

    fn open_wrap(&mut self, wrap: &Wrap, opened: Opened) -> Result<(), AllocError>
        ensures { wraps (opened ∷ []) ≡ 1 →
            IsMarked self.old → OnOk result (IsMarked self.new) }
    {
        self.out.open(wrap.clone()?)?;
        self.open.push(opened)?;
        Ok(())
    }

    /// Whether quotes of this source get marks where they stand.
    fn gives_marks(&self, source: QuoteSource) -> bool {
        match self.which {
            Which::All => true,
            Which::OfFields => {
                source == QuoteSource::Field && !self.open.iter().any(|it| *it == Opened::Quotes)
            }
        }
    }

    fn close(&mut self) -> Result<(), AllocError>
        ensures marked { IsMarked self.old → OnOk result (IsMarked self.new) }
        ensures open { OnOk result (length self.new.open.items
            ≡ length self.old.open.items - 1) }
    {
        match self.open.pop() {
            Some(opened) => self.end(opened),
            None => Ok(()),
        }
    }

    /// Writes what the last wrap ends with, which was open.
    #[tactic(auto, using(crate::proofs::Depths::wrap_closed))]
    fn end(&mut self, opened: Opened) -> Result<(), AllocError>
        ensures marked { depth 0 (edges self.old.out.pieces.items)
            ≡ Some (wraps (self.old.open.items ++ opened ∷ []))
            → OnOk result (IsMarked self.new) }
        ensures open { self.new.open ≡ self.old.open }
    {
        match opened {
            Opened::Marks => {
                self.marks = self.marks.inside();
                self.out.push_str(self.alloc, self.marks.close)
            }
            Opened::Quotes | Opened::Other => self.out.close(),
        }
    }
}

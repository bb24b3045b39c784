//! Streams of pieces.
ghost use Rattle.std.specs.Prelude.{◌≡◌, false, true, [], ◌∷◌, ◌++◌, IfOk, OnOk};
ghost use Rattle.cite_pieces.specs.Nesting.{IsNested, depth, edges};

use crate::piece::{Mark, Piece, Wrap};
use cite_texts::addresses::{last_address, without_beginning};
use std::alloc::{AllocError, Global};

/// A stream of pieces. What opens in it closes in it, and nothing else does.
#[derive(Clone, Drop)]
pub struct Pieces {
    pieces: Vec<Piece>,
}

impl Pieces {
    /// No pieces.
    pub fn new(alloc: Global) -> Pieces
        ensures { result.pieces.items ≡ [] }
    {
        Pieces {
            pieces: Vec::new(alloc),
        }
    }

    /// A text alone.
    ///
    /// # Errors
    ///
    /// Where memory is refused.
    pub fn of_str(alloc: Global, text: &str) -> Result<Pieces, AllocError>
        ensures { IfOk result (λ pieces. IsNested pieces.pieces.items) }
    {
        let mut pieces = Pieces::new(alloc);
        pieces.push_str(alloc, text)?;
        Ok(pieces)
    }

    /// Whether no text of the stream has a character.
    pub fn has_no_text(&self) -> bool {
        self.first_char().is_none()
    }

    /// The first character of its texts.
    pub fn first_char(&self) -> Option<char> {
        self.pieces.iter().find_map(|piece| piece.first_char())
    }

    /// The last character of its texts.
    pub fn last_char(&self) -> Option<char> {
        self.pieces.iter().rev().find_map(|piece| piece.last_char())
    }

    /// Whether some of the stream has this mark.
    pub fn has_mark(&self, mark: Mark) -> bool {
        for piece in &self.pieces {
            if is_marked(piece, mark) {
                return true;
            }
        }
        false
    }

    /// The pieces in their order.
    pub fn as_slice(&self) -> &[Piece]
        ensures { result.now ≡ self.now.pieces.items }
    {
        self.pieces.as_slice()
    }

    /// The pieces as a vector.
    pub fn into_vec(self) -> Vec<Piece>
        ensures { result ≡ self.pieces }
    {
        self.pieces
    }

    /// Adds a text.
    ///
    /// # Errors
    ///
    /// Where memory is refused; the stream stays as it is.
    pub fn push_text(&mut self, text: String) -> Result<(), AllocError>
        ensures edges { edges self.new.pieces.items ≡ edges self.old.pieces.items }
    {
        if text.is_empty() {
            return Ok(());
        }
        self.pieces.push(Piece::Text(text))?;
        Ok(())
    }

    /// Adds a copy of a text.
    ///
    /// # Errors
    ///
    /// Where memory is refused; the stream stays as it is.
    pub fn push_str(&mut self, alloc: Global, text: &str) -> Result<(), AllocError>
        ensures edges { edges self.new.pieces.items ≡ edges self.old.pieces.items }
    {
        if text.is_empty() {
            return Ok(());
        }
        self.push_text(String::from_str(alloc, text)?)
    }

    /// Adds a copy of a text at the end: inside what `display` sets off, where what begins at
    /// `start` ends with that.
    ///
    /// # Errors
    ///
    /// Where memory is refused; the stream stays as it is.
    pub(crate) fn push_suffix(
        &mut self,
        alloc: Global,
        text: &str,
        start: usize,
    ) -> Result<(), AllocError>
        ensures edges { edges self.new.pieces.items ≡ edges self.old.pieces.items }
    {
        if text.is_empty() {
            return Ok(());
        }
        match self.end_of_display(alloc, start)? {
            Some(place) if place <= self.pieces.len() => {
                let text = String::from_str(alloc, text)?;
                self.pieces.insert(place, Piece::Text(text))?;
                Ok(())
            }
            _ => self.push_str(alloc, text),
        }
    }

    /// Where what `display` sets off ends, if what begins at `start` ends with that.
    fn end_of_display(&self, alloc: Global, start: usize) -> Result<Option<usize>, AllocError> {
        let mut are_displays = Vec::new(alloc);
        let mut end = None;
        for (place, piece) in self.pieces.iter().enumerate().skip(start) {
            match piece {
                Piece::Text(_) => end = None,
                Piece::Open(wrap) => {
                    end = None;
                    are_displays.push(matches!(wrap, Wrap::Display(_)))?;
                }
                Piece::Close => {
                    if are_displays.pop() == Some(true) {
                        end = Some(place);
                    }
                }
            }
        }
        Ok(end)
    }

    /// Adds the pieces of another stream.
    ///
    /// # Errors
    ///
    /// Where memory is refused; the stream stays as it is.
    pub fn push_pieces(&mut self, other: Pieces) -> Result<(), AllocError>
        ensures edges { OnOk result (edges self.new.pieces.items
            ≡ edges self.old.pieces.items ++ edges other.pieces.items) }
    {
        let mut pieces = other.pieces;
        if self.pieces.is_empty() {
            self.pieces = pieces;
            return Ok(());
        }
        self.pieces.append(&mut pieces)
    }

    /// Adds the pieces of another stream with something around them.
    ///
    /// # Errors
    ///
    /// Where memory is refused; some of what was to be added is in the stream then.
    #[tactic(auto, using(crate::proofs::Edges::wrapped))]
    pub fn push_wrapped(&mut self, wrap: Wrap, inside: Pieces) -> Result<(), AllocError>
        ensures edges { OnOk result (edges self.new.pieces.items
            ≡ edges self.old.pieces.items ++ (true ∷ edges inside.pieces.items ++ false ∷ [])) }
    {
        self.open(wrap)?;
        self.push_pieces(inside)?;
        self.close()
    }

    pub(crate) fn len(&self) -> usize {
        self.pieces.len()
    }

    /// Takes off the end of the last text, if the stream ends with one that ends with the
    /// beginning of this address. Empty where nothing is taken off.
    pub(crate) fn take_beginning(
        &mut self,
        alloc: Global,
        address: &str,
    ) -> Result<String, AllocError> {
        let Some(Piece::Text(text)) = self.pieces.last() else {
            return Ok(String::new(alloc));
        };
        let (rest, beginning) = split_before_address(text.as_str(), address);
        let rest = String::from_str(alloc, rest)?;
        let beginning = String::from_str(alloc, beginning)?;
        if !beginning.is_empty() {
            self.pieces.pop();
            self.push_text(rest)?;
        }
        Ok(beginning)
    }

    /// Leaves the pieces before this place.
    pub(crate) fn truncate(&mut self, end: usize) {
        self.pieces.truncate(end);
    }

    /// Takes off the pieces from this place on.
    pub(crate) fn split_off(&mut self, alloc: Global, start: usize) -> Result<Pieces, AllocError> {
        if start >= self.pieces.len() {
            return Ok(Pieces::new(alloc));
        }
        Ok(Pieces {
            pieces: self.pieces.split_off(start)?,
        })
    }

    /// Removes what opens the first mark between these places. Returns whether there was one.
    pub(crate) fn remove_mark(&mut self, start: usize, end: usize) -> bool {
        match self.mark_between(start, end) {
            Some(place) if place < self.pieces.len() => {
                self.pieces.remove(place);
                true
            }
            _ => false,
        }
    }

    /// Where the first mark between these places begins.
    fn mark_between(&self, start: usize, end: usize) -> Option<usize> {
        for place in start..end {
            if matches!(self.pieces.get(place), Some(Piece::Open(Wrap::Mark(_)))) {
                return Some(place);
            }
        }
        None
    }

    pub(crate) fn open(&mut self, wrap: Wrap) -> Result<(), AllocError>
        ensures { OnOk result (edges self.new.pieces.items
            ≡ edges self.old.pieces.items ++ true ∷ []) }
    {
        self.pieces.push(Piece::Open(wrap))?;
        Ok(())
    }

    pub(crate) fn close(&mut self) -> Result<(), AllocError>
        ensures { OnOk result (edges self.new.pieces.items
            ≡ edges self.old.pieces.items ++ false ∷ []) }
    {
        self.pieces.push(Piece::Close)?;
        Ok(())
    }

    /// The stream with this mark around so many of its first pieces, in which as much closes as
    /// opens; without it where it has none or fewer.
    ///
    /// # Errors
    ///
    /// Where memory is refused.
    pub fn with_first_marked(
        self,
        alloc: Global,
        count: usize,
        mark: Mark,
    ) -> Result<Pieces, AllocError> {
        if count == 0 || count > self.pieces.len() {
            return Ok(self);
        }
        let mut marked = Pieces::new(alloc);
        marked.open(Wrap::Mark(mark))?;
        let mut passed = 0usize;
        for piece in self.pieces {
            marked.pieces.push(piece)?;
            passed = passed.saturating_add(1);
            if passed == count {
                marked.close()?;
            }
        }
        Ok(marked)
    }

    /// The stream without its marks. What is in them stays.
    ///
    /// # Errors
    ///
    /// Where memory is refused.
    pub fn without_marks(self, alloc: Global) -> Result<Pieces, AllocError> {
        let mut kept = Pieces::new(alloc);
        let mut are_marks = Vec::new(alloc);
        for piece in self.pieces {
            let is_of_mark = match &piece {
                Piece::Text(_) => false,
                Piece::Open(wrap) => {
                    let is_mark = matches!(wrap, Wrap::Mark(_));
                    are_marks.push(is_mark)?;
                    is_mark
                }
                Piece::Close => are_marks.pop() == Some(true),
            };
            if !is_of_mark {
                kept.pieces.push(piece)?;
            }
        }
        Ok(kept)
    }

    /// The stream without its parts of this mark.
    ///
    /// # Errors
    ///
    /// Where memory is refused.
    pub fn without_mark(self, alloc: Global, mark: Mark) -> Result<Pieces, AllocError> {
        let mut kept = Pieces::new(alloc);
        let mut inside = 0usize;
        for piece in self.pieces {
            let before = inside;
            inside = depth_behind(inside, &piece, mark);
            if before == 0 && inside == 0 {
                kept.pieces.push(piece)?;
            }
        }
        Ok(kept)
    }

    /// The parts of the stream that have this mark.
    ///
    /// # Errors
    ///
    /// Where memory is refused.
    pub fn only_mark(self, alloc: Global, mark: Mark) -> Result<Pieces, AllocError> {
        let mut kept = Pieces::new(alloc);
        let mut inside = 0usize;
        for piece in self.pieces {
            let before = inside;
            inside = depth_behind(inside, &piece, mark);
            if before > 0 || inside > 0 {
                kept.pieces.push(piece)?;
            }
        }
        Ok(kept)
    }
}

/// A text, and what it ends with that an address begins with, in any case.
fn split_before_address<'t>(text: &'t str, address: &str) -> (&'t str, &'t str) {
    let beginning = last_address(text);
    let has_beginning = without_beginning(address, beginning).is_some();
    match text.strip_suffix(beginning) {
        Some(rest) if has_beginning => (rest, beginning),
        _ => (text, ""),
    }
}

fn is_marked(piece: &Piece, mark: Mark) -> bool {
    match piece {
        Piece::Open(Wrap::Mark(other)) => *other == mark,
        _ => false,
    }
}

/// How many wraps are open from a mark on, with that of the mark, behind a piece.
fn depth_behind(depth: usize, piece: &Piece, mark: Mark) -> usize {
    match piece {
        Piece::Open(_) if depth > 0 || is_marked(piece, mark) => depth.saturating_add(1),
        Piece::Close => depth.saturating_sub(1),
        _ => depth,
    }
}

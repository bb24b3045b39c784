//! Streams as plain text.
use crate::piece::{Piece, Wrap};
use crate::pieces::Pieces;
use cite_texts::lines::push_in_line;
use cite_texts::quotes::QuoteMarks;
use std::alloc::{AllocError, Global};

/// The texts of a stream as one line, with quotation marks. Quotes inside quotes have the inner
/// marks, and so on in turn. A space stands beside what `display` sets off. Of control characters,
/// those that are white space are spaces, and the others are left out.
///
/// # Errors
///
/// Where memory is refused.
pub fn plain_text(
    alloc: Global,
    pieces: &Pieces,
    marks: QuoteMarks<'_>,
) -> Result<String, AllocError> {
    let mut line = Line {
        text: String::new(alloc),
        marks,
        open: Vec::new(alloc),
        is_apart: false,
    };
    for piece in pieces.as_slice() {
        match piece {
            Piece::Text(text) => line.push_text(text.as_str())?,
            Piece::Open(wrap) => line.open(wrap)?,
            Piece::Close => line.close()?,
        }
    }
    Ok(line.text)
}

/// A text that is being written.
#[derive(Drop)]
struct Line<'m> {
    text: String,
    marks: QuoteMarks<'m>,
    /// The wraps that are open.
    open: Vec<OpenWrap>,
    /// Whether what comes next is set off from the text.
    is_apart: bool,
}

/// A wrap that is open.
#[derive(Clone, Copy)]
enum OpenWrap {
    Quotes,
    Display,
    Other,
}

impl Line<'_> {
    fn push_text(&mut self, text: &str) -> Result<(), AllocError> {
        if self.is_apart && !self.text.is_empty() {
            push_in_line(&mut self.text, '\n')?;
        }
        self.is_apart = false;
        for c in text.chars() {
            push_in_line(&mut self.text, c)?;
        }
        Ok(())
    }

    fn open(&mut self, wrap: &Wrap) -> Result<(), AllocError> {
        let open = match wrap {
            Wrap::Quotes(_) => {
                let mark = self.marks.open;
                self.push_text(mark)?;
                self.marks = self.marks.inside();
                OpenWrap::Quotes
            }
            Wrap::Display(_) => {
                self.is_apart = true;
                OpenWrap::Display
            }
            _ => OpenWrap::Other,
        };
        self.open.push(open)?;
        Ok(())
    }

    fn close(&mut self) -> Result<(), AllocError> {
        match self.open.pop() {
            Some(OpenWrap::Quotes) => {
                self.marks = self.marks.inside();
                let mark = self.marks.close;
                self.push_text(mark)
            }
            Some(OpenWrap::Display) => {
                self.is_apart = true;
                Ok(())
            }
            Some(OpenWrap::Other) | None => Ok(()),
        }
    }
}

//! The texts of a stream, and who wrote each.
use cite_pieces::piece::{Mark, Piece, Wrap};
use cite_pieces::pieces::Pieces;
use cite_texts::lines::is_control;
use cite_texts::quotes::QuoteMarks;
use cite_walk::cite::marked_step;
use std::alloc::{AllocError, Global};

/// Who wrote a text.
#[derive(Clone, Copy, PartialEq, Eq)]
pub(crate) enum Author {
    Layout,
    /// The step at this place of the layout's program.
    Step(usize),
    /// The document: words of its own that stand around a cite.
    Document,
}

/// A text, and who wrote it.
#[derive(Drop)]
pub(crate) struct AuthoredText {
    pub text: String,
    pub author: Author,
}

/// The texts of a stream. Together they are what `plain_text` gives; no two in a row are of the same
/// author.
///
/// # Errors
///
/// Where memory is refused.
pub(crate) fn authored_texts(
    alloc: Global,
    pieces: &Pieces,
    marks: QuoteMarks<'_>,
) -> Result<Vec<AuthoredText>, AllocError> {
    let mut line = AuthoredLine {
        alloc,
        texts: Vec::new(alloc),
        last: None,
        author: Author::Layout,
        marks,
        open: Vec::new(alloc),
        is_apart: false,
    };
    for piece in pieces.as_slice() {
        match piece {
            Piece::Text(text) => line.push_text(text.as_str())?,
            Piece::Open(wrap) => line.open(wrap)?,
            Piece::Close => line.close()?,
        }
    }
    Ok(line.texts)
}

/// Adds a text behind others.
///
/// # Errors
///
/// Where memory is refused.
pub(crate) fn push_authored(
    alloc: Global,
    texts: &mut Vec<AuthoredText>,
    author: Author,
    c: char,
) -> Result<(), AllocError> {
    if let Some(last) = texts.last_mut() {
        if last.author == author {
            return last.text.push(c);
        }
    }
    let mut text = String::new(alloc);
    text.push(c)?;
    texts.push(AuthoredText { text, author })?;
    Ok(())
}

/// Texts without the white space at their end.
///
/// # Errors
///
/// Where memory is refused.
pub(crate) fn without_end(
    alloc: Global,
    texts: Vec<AuthoredText>,
) -> Result<Vec<AuthoredText>, AllocError> {
    let mut texts = texts;
    for _ in 0..texts.len() {
        let Some(AuthoredText { text, author }) = texts.pop() else {
            return Ok(texts);
        };
        let kept = text.as_str().trim_end();
        if !kept.is_empty() {
            let text = String::from_str(alloc, kept)?;
            texts.push(AuthoredText { text, author })?;
            return Ok(texts);
        }
    }
    Ok(texts)
}

/// Texts that are being written.
#[derive(Drop)]
struct AuthoredLine<'m> {
    alloc: Global,
    texts: Vec<AuthoredText>,
    /// The last character.
    last: Option<char>,
    author: Author,
    marks: QuoteMarks<'m>,
    /// The wraps that are open.
    open: Vec<OpenWrap>,
    /// Whether what comes next is set off from the text.
    is_apart: bool,
}

/// A wrap that is open.
#[derive(Clone, Copy)]
enum OpenWrap {
    Quotes,
    Display,
    /// What an author wrote; it stands in what this one wrote.
    Authored(Author),
    Other,
}

impl AuthoredLine<'_> {
    fn push_text(&mut self, text: &str) -> Result<(), AllocError> {
        if self.is_apart && self.last.is_some() {
            self.push('\n')?;
        }
        self.is_apart = false;
        for c in text.chars() {
            self.push(c)?;
        }
        Ok(())
    }

    /// Adds a character as lines have it (`push_in_line`).
    fn push(&mut self, c: char) -> Result<(), AllocError> {
        if !is_control(c) {
            return self.push_shown(c);
        }
        let takes_space = match self.last {
            Some(last) => last != ' ',
            None => false,
        };
        if takes_space && c.is_whitespace() {
            return self.push_shown(' ');
        }
        Ok(())
    }

    fn push_shown(&mut self, c: char) -> Result<(), AllocError> {
        self.last = Some(c);
        push_authored(self.alloc, &mut self.texts, self.author, c)
    }

    fn open(&mut self, wrap: &Wrap) -> Result<(), AllocError> {
        let open = match wrap {
            Wrap::Quotes(_) => {
                let mark = self.marks.open;
                self.push_text(mark)?;
                self.marks = self.marks.inside();
                OpenWrap::Quotes
            }
            Wrap::Display(_) => {
                self.is_apart = true;
                OpenWrap::Display
            }
            Wrap::Mark(mark) => self.begin(author_of(*mark)),
            _ => OpenWrap::Other,
        };
        self.open.push(open)?;
        Ok(())
    }

    /// What this author wrote begins.
    fn begin(&mut self, author: Option<Author>) -> OpenWrap {
        let Some(author) = author else {
            return OpenWrap::Other;
        };
        let around = self.author;
        self.author = author;
        OpenWrap::Authored(around)
    }

    fn close(&mut self) -> Result<(), AllocError> {
        match self.open.pop() {
            Some(OpenWrap::Quotes) => {
                self.marks = self.marks.inside();
                let mark = self.marks.close;
                self.push_text(mark)
            }
            Some(OpenWrap::Display) => {
                self.is_apart = true;
                Ok(())
            }
            Some(OpenWrap::Authored(around)) => {
                self.author = around;
                Ok(())
            }
            Some(OpenWrap::Other) | None => Ok(()),
        }
    }
}

/// Who wrote what has this mark, if it says that. A cite is what its document wrote, but for what
/// steps wrote in it.
fn author_of(mark: Mark) -> Option<Author> {
    match mark {
        Mark::Entry(_) => Some(Author::Document),
        _ => marked_step(mark).map(Author::Step),
    }
}

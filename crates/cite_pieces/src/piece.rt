//! The pieces of a stream.
use reference_values::rich_text::RunStyle;
use style_file::formatting::{Display, Formatting};
use style_file::variable::NameVariable;

/// A piece of a stream: a text, or where something that stands around other pieces begins or ends.
#[derive(Clone, Drop)]
pub enum Piece {
    Text(String),
    Open(Wrap),
    Close,
}

/// What stands around pieces.
#[derive(Clone, Drop)]
pub enum Wrap {
    /// The formatting that an element of the style asks for.
    Formatting(Formatting),
    /// The markup of a text. It flips: italics in italics are upright.
    Markup(RunStyle),
    /// Quotation marks, which are those of inner quotes inside others.
    Quotes(QuoteSource),
    /// What is inside leads to this URL.
    Link(String),
    Display(Display),
    Mark(Mark),
}

/// Whose quotes are.
#[derive(Clone, Copy, PartialEq, Eq)]
pub enum QuoteSource {
    /// An element of the style asks for them.
    Style,
    /// The text of a field has them.
    Field,
    /// So it has, and it ends with them: what follows them is the style's.
    FieldEnd,
}

/// What a part of a stream was written for. A number distinguishes parts, and is the caller's own.
#[derive(Clone, Copy, PartialEq, Eq)]
pub enum Mark {
    /// All that a cite has of names, with their label, or what stands in for them.
    Author(usize),
    /// The names of one or more variables.
    Names(usize),
    /// One name of a variable, and its place among them.
    Name(NameVariable, usize),
    /// A date.
    Date(usize),
    /// The suffix that disambiguates the dates of two items.
    YearSuffix,
    CitationNumber,
    CitationLabel,
    Locator,
    /// A whole entry.
    Entry(usize),
    /// Anything else.
    Other(usize),
}

impl Piece {
    /// The first character of a text.
    pub fn first_char(&self) -> Option<char> {
        match self {
            Piece::Text(text) => text.as_str().chars().next(),
            Piece::Open(_) | Piece::Close => None,
        }
    }

    /// The last character of a text.
    pub fn last_char(&self) -> Option<char> {
        match self {
            Piece::Text(text) => text.as_str().chars().next_back(),
            Piece::Open(_) | Piece::Close => None,
        }
    }
}

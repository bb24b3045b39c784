//! Why CSL-JSON isn't read.
use std::alloc::{AllocError, AllocFailed};
use std::fmt;
use thiserror::Error;

/// A step from a value to a part of it.
#[derive(Debug, Drop)]
pub enum Step {
    /// To the member of this key.
    Key(String),
    /// To the item at this place, from 0.
    Item(usize),
}

/// A JSON Pointer (RFC 6901): the way from the whole of the JSON to a part of it.
#[derive(Debug, Drop)]
pub struct Pointer {
    pub steps: Vec<Step>,
}

/// What was found where something else is wanted.
#[derive(Debug, Drop)]
pub enum Found {
    Null,
    Boolean,
    Number,
    Text,
    List,
    Object,
    /// An object without an `id`.
    MissingId,
}

/// What is wanted.
#[derive(Debug, Drop)]
pub enum Wanted {
    /// A list of items, or an object that has one under `items`.
    Items,
    /// An item: an object with an `id`.
    Item,
    /// An `id`, which is a text or a number.
    Id,
    /// A text or a number.
    Text,
    /// A truth value, or a number or text that stands for one.
    Flag,
    /// A list of names.
    Names,
    /// A name, which is an object or a text.
    Name,
    /// A text, or an object of a date's parts.
    Date,
    /// A list of the dates of a range, which are lists.
    DateParts,
    /// A list of a year, a month and a day.
    DateNumbers,
    /// A whole number, which may be written as a text.
    WholeNumber,
}

/// A part of the JSON that is not of its form.
#[derive(Debug, Drop)]
pub struct Fault {
    /// The way to the part.
    pub pointer: Pointer,
    pub found: Found,
    pub wanted: Wanted,
}

/// Why no references are read.
#[derive(Debug, Drop, Error)]
pub enum ReferencesError {
    /// The bytes are no UTF-8 from this one on, counted from 0.
    #[error("no UTF-8 from byte {byte}")]
    NoUtf8 { byte: usize },
    /// The text is no JSON from this place on: the line counted from 1, and the bytes of that line
    /// up to the first that can't be there.
    #[error("no JSON from line {line}, column {column}")]
    NoJson { line: usize, column: usize },
    /// The JSON is no list of references.
    #[error("{0}")]
    Fault(Box<Fault>),
    #[error("out of memory")]
    OutOfMemory,
}

impl From<AllocError> for ReferencesError {
    ghost use Rattle.std.specs.Prelude.{◌≡◌};
    ghost use Rattle.reference_json.specs.declared.fault.ReferencesError.TheVariants.{OutOfMemory};

    ghost from_gives = { λ _ e. e ≡ OutOfMemory };

    fn from(_error: AllocError) -> ReferencesError {
        ReferencesError::OutOfMemory
    }
}

impl<T: Drop> From<AllocFailed<T>> for ReferencesError {
    ghost use Rattle.std.specs.Prelude.{◌≡◌};
    ghost use Rattle.reference_json.specs.declared.fault.ReferencesError.TheVariants.{OutOfMemory};

    ghost from_gives = { λ _ e. e ≡ OutOfMemory };

    fn from(_error: AllocFailed<T>) -> ReferencesError {
        ReferencesError::OutOfMemory
    }
}

impl fmt::Display for Pointer {
    fn fmt<W: fmt::Write>(&self, f: &mut fmt::Formatter<W>) -> fmt::Result {
        for step in &self.steps {
            match step {
                Step::Key(key) => {
                    f.write_char('/')?;
                    write_escaped(f, key.as_str())?;
                }
                Step::Item(place) => write!(f, "/{place}")?,
            }
        }
        Ok(())
    }
}

/// Writes a key as it stands in a pointer.
fn write_escaped<W: fmt::Write>(f: &mut fmt::Formatter<W>, key: &str) -> fmt::Result {
    for c in key.chars() {
        match c {
            '~' => f.write_str("~0")?,
            '/' => f.write_str("~1")?,
            c => f.write_char(c)?,
        }
    }
    Ok(())
}

impl fmt::Display for Found {
    fn fmt<W: fmt::Write>(&self, f: &mut fmt::Formatter<W>) -> fmt::Result {
        f.write_str(match self {
            Found::Null => "null",
            Found::Boolean => "a truth value",
            Found::Number => "a number",
            Found::Text => "a text",
            Found::List => "a list",
            Found::Object => "an object",
            Found::MissingId => "no `id`",
        })
    }
}

impl fmt::Display for Wanted {
    fn fmt<W: fmt::Write>(&self, f: &mut fmt::Formatter<W>) -> fmt::Result {
        f.write_str(match self {
            Wanted::Items => "a list of items, or an object that has one under `items`",
            Wanted::Item => "an item, which is an object",
            Wanted::Id => "an `id`, which is a text or a number",
            Wanted::Text => "a text or a number",
            Wanted::Flag => "true or false",
            Wanted::Names => "a list of names",
            Wanted::Name => "a name, which is an object or a text",
            Wanted::Date => "a date, which is a text or an object",
            Wanted::DateParts => "a list of one or two lists of numbers",
            Wanted::DateNumbers => "a list of a year, a month and a day",
            Wanted::WholeNumber => "a whole number",
        })
    }
}

impl fmt::Display for Fault {
    fn fmt<W: fmt::Write>(&self, f: &mut fmt::Formatter<W>) -> fmt::Result {
        let pointer = &self.pointer;
        let found = &self.found;
        let wanted = &self.wanted;
        write!(f, "{pointer}: found {found}, wanted {wanted}")
    }
}

//! Why citations aren't read.
use reference_json::fault::Pointer;
use std::alloc::{AllocError, AllocFailed};
use std::fmt;
use thiserror::Error;

/// What is wanted.
#[derive(Clone, Copy, Debug, PartialEq, Eq)]
pub enum Wanted {
    /// A list of citations.
    Citations,
    /// A citation, which is a list of cites or an object with one.
    Citation,
    /// The cites of a citation that is an object: a list at `citationItems`.
    Cites,
    /// A cite, which is an object.
    Cite,
    /// A cite that has an `id`, which is a text or a number.
    Id,
}

/// A part of the JSON that is not of its form.
#[derive(Debug, Drop)]
pub struct CitationFault {
    /// The way to the part.
    pub pointer: Pointer,
    pub wanted: Wanted,
}

/// Why no citations are read.
#[derive(Debug, Drop, Error)]
pub enum CitationsError {
    /// The bytes are no UTF-8 from this one on, counted from 0.
    #[error("no UTF-8 from byte {byte}")]
    NoUtf8 { byte: usize },
    /// The text is no JSON from this place on: the line counted from 1, and the bytes of that line
    /// up to the first that can't be there.
    #[error("no JSON from line {line}, column {column}")]
    NoJson { line: usize, column: usize },
    /// The JSON is no list of citations.
    #[error("{0}")]
    Fault(CitationFault),
    #[error("out of memory")]
    OutOfMemory,
}

impl From<AllocError> for CitationsError {
    fn from(_error: AllocError) -> CitationsError {
        CitationsError::OutOfMemory
    }
}

impl<T: Drop> From<AllocFailed<T>> for CitationsError {
    fn from(_error: AllocFailed<T>) -> CitationsError {
        CitationsError::OutOfMemory
    }
}

impl fmt::Display for Wanted {
    fn fmt<W: fmt::Write>(&self, f: &mut fmt::Formatter<W>) -> fmt::Result {
        f.write_str(match self {
            Wanted::Citations => "wanted a list of citations",
            Wanted::Citation => {
                "wanted a citation, which is a list of cites or an object with `citationItems`"
            }
            Wanted::Cites => "wanted `citationItems`, which is a list of cites",
            Wanted::Cite => "wanted a cite, which is an object",
            Wanted::Id => "wanted an `id`, which is a text or a number",
        })
    }
}

impl fmt::Display for CitationFault {
    fn fmt<W: fmt::Write>(&self, f: &mut fmt::Formatter<W>) -> fmt::Result {
        let pointer = &self.pointer;
        let wanted = &self.wanted;
        if pointer.steps.is_empty() {
            write!(f, "{wanted}")
        } else {
            write!(f, "{pointer}: {wanted}")
        }
    }
}

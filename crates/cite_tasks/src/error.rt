//! Why there is no answer.
use cite_limits::error::{Excess, LimitError};
use cite_program::program::ProgramError;
use std::alloc::{AllocError, AllocFailed};
use std::fmt;

/// Why there is no answer.
#[derive(Debug, Drop)]
pub enum AnswerError {
    /// A citation, counted from 0, cites an item that isn't there.
    NoReference { citation: usize, id: String },
    /// The macros of the style make a layout too long.
    StyleTooLong,
    /// The style takes more steps, or writes more, than it may.
    LimitExceeded(Excess),
    /// There are too many items to number them.
    TooManyItems,
    OutOfMemory,
}

impl From<AllocError> for AnswerError {
    fn from(_error: AllocError) -> AnswerError {
        AnswerError::OutOfMemory
    }
}

impl<T: Drop> From<AllocFailed<T>> for AnswerError {
    fn from(_error: AllocFailed<T>) -> AnswerError {
        AnswerError::OutOfMemory
    }
}

impl From<ProgramError> for AnswerError {
    fn from(error: ProgramError) -> AnswerError {
        match error {
            ProgramError::TooLong => AnswerError::StyleTooLong,
            ProgramError::OutOfMemory => AnswerError::OutOfMemory,
        }
    }
}

impl From<LimitError> for AnswerError {
    fn from(error: LimitError) -> AnswerError {
        match error {
            LimitError::Exceeded(excess) => AnswerError::LimitExceeded(excess),
            LimitError::OutOfMemory => AnswerError::OutOfMemory,
        }
    }
}

impl fmt::Display for AnswerError {
    fn fmt<W: fmt::Write>(&self, f: &mut fmt::Formatter<W>) -> fmt::Result {
        match self {
            AnswerError::NoReference { citation, id } => {
                write!(f, "citation {citation}: there is no item ")?;
                f.write_str(id.as_str())
            }
            AnswerError::StyleTooLong => f.write_str("the macros of the style are too long"),
            AnswerError::LimitExceeded(excess) => write!(f, "{excess}"),
            AnswerError::TooManyItems => f.write_str("there are too many items"),
            AnswerError::OutOfMemory => f.write_str("out of memory"),
        }
    }
}

//! Where a style exceeds its limits.
use crate::cost::{Cost, Limited};
use std::alloc::{AllocError, AllocFailed};
use std::fmt;

/// A part of a style.
#[derive(Clone, Copy, PartialEq, Eq, Debug)]
pub enum StylePlace {
    /// The macro at this place among the macros of the style.
    Macro(usize),
    Citation,
    Bibliography,
    /// The element `locale` at this place among those of the style.
    Locale(usize),
}

/// What a style exceeds, and where.
#[derive(Clone, Copy, PartialEq, Eq, Debug)]
pub struct Excess {
    pub what: Limited,
    /// How many steps or bytes there may be.
    pub most: usize,
    /// The innermost macro that exceeds it, or else the part of the style.
    pub place: StylePlace,
}

impl Excess {
    /// The excess of something that has too little of this, where there were so many in all.
    pub fn of(what: Limited, most: Cost, place: StylePlace) -> Excess {
        Excess {
            what,
            most: match what {
                Limited::Steps => most.steps,
                Limited::Bytes => most.bytes,
            },
            place,
        }
    }
}

impl fmt::Display for Excess {
    fn fmt<W: fmt::Write>(&self, f: &mut fmt::Formatter<W>) -> fmt::Result {
        let most = self.most;
        match self.what {
            Limited::Steps => write!(f, "the style takes more than {most} steps"),
            Limited::Bytes => write!(f, "the style writes more than {most} bytes"),
        }
    }
}

/// Why nothing is written.
#[derive(Clone, Copy, PartialEq, Eq, Debug)]
pub enum LimitError {
    /// The style exceeds a limit.
    Exceeded(Excess),
    OutOfMemory,
}

impl From<AllocError> for LimitError {
    fn from(_error: AllocError) -> LimitError {
        LimitError::OutOfMemory
    }
}

impl<T: Drop> From<AllocFailed<T>> for LimitError {
    fn from(_error: AllocFailed<T>) -> LimitError {
        LimitError::OutOfMemory
    }
}

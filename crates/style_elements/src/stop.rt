//! Where reading stops, before the place is known.
ghost use Rattle.style_elements.specs.Places.{IsErrorIn};

use crate::error::StyleError;
use crate::fault::{Fault, Wanted};
use std::alloc::{AllocError, AllocFailed, Global};
use style_xml::error::place_at;

/// How many characters of the text an error or a warning quotes at most.
pub const MAX_FOUND: usize = 40;

/// Why reading stops.
#[derive(Debug, Drop)]
pub enum Stop {
    /// Something is wrong at this offset, in bytes from the start of the text.
    At { offset: usize, fault: Fault },
    OutOfMemory,
}

impl Stop {
    /// At this offset this was found, and something else is wanted.
    pub fn at(alloc: Global, offset: usize, found: &str, wanted: Wanted) -> Stop {
        match clipped(alloc, found) {
            Ok(found) => Stop::At {
                offset,
                fault: Fault { found, wanted },
            },
            Err(_) => Stop::OutOfMemory,
        }
    }

    /// Its offset; lack of memory comes before all else.
    pub fn offset(&self) -> usize {
        match self {
            Stop::At { offset, .. } => *offset,
            Stop::OutOfMemory => 0,
        }
    }

    /// The error, of the text that was read.
    pub fn in_text(self, text: &str) -> StyleError
        ensures { IsErrorIn text.now result }
    {
        match self {
            Stop::At { offset, fault } => {
                StyleError::Refused(fault, place_at(text, offset.min(text.len())))
            }
            Stop::OutOfMemory => StyleError::OutOfMemory,
        }
    }
}

/// The beginning of a text, as errors and warnings tell it: at most `MAX_FOUND` characters, with
/// U+FFFD for each control character.
///
/// # Errors
///
/// Where memory is refused.
pub fn clipped(alloc: Global, text: &str) -> Result<String, AllocError> {
    text.chars()
        .take(MAX_FOUND)
        .map(|c| if c.is_control() { '\u{fffd}' } else { c })
        .collect(alloc)
}

impl From<AllocError> for Stop {
    fn from(_error: AllocError) -> Stop {
        Stop::OutOfMemory
    }
}

impl<T: Drop> From<AllocFailed<T>> for Stop {
    fn from(_error: AllocFailed<T>) -> Stop {
        Stop::OutOfMemory
    }
}

//! All that is wrong with a file.
ghost use Rattle.style_elements.specs.Places.{IsErrorIn};

use crate::error::StyleError;
use crate::stop::Stop;
use std::alloc::{AllocError, Global};

/// What is wrong with a file.
#[derive(Debug, Drop)]
pub struct Refusal {
    /// What was wrong before, behind which the reader went on.
    pub before: Vec<Stop>,
    /// What was found last.
    pub last: Stop,
}

impl Refusal {
    /// Nothing but this.
    pub fn of_stop(alloc: Global, stop: Stop) -> Refusal {
        Refusal {
            before: Vec::new(alloc),
            last: stop,
        }
    }

    /// The first of what is wrong by its place in the text that was read.
    pub fn first_in_text(self, text: &str) -> StyleError
        ensures { IsErrorIn text.now result }
    {
        let Refusal { before, last } = self;
        let mut first = last;
        for stop in before {
            if stop.offset() < first.offset() {
                first = stop;
            }
        }
        first.in_text(text)
    }

    /// All that is wrong, in the order of its places in the text that was read.
    ///
    /// # Errors
    ///
    /// Where memory is refused, or was.
    pub fn all_in_text(self, alloc: Global, text: &str) -> Result<Vec<StyleError>, AllocError> {
        let Refusal { before, last } = self;
        if let Stop::OutOfMemory = last {
            return Err(AllocError);
        }
        let mut stops = before;
        stops.push(last)?;
        stops.sort_by_key(|stop| stop.offset())?;
        let mut errors = Vec::new(alloc);
        for stop in stops {
            errors.push(stop.in_text(text))?;
        }
        Ok(errors)
    }
}

//! The reader of texts, and what it warns of.
use crate::remark::Remark;
use crate::texts::TextName;
use fault_places::place::FaultPlace;
use std::alloc::{AllocError, Global};
use std::fmt;

/// Reads texts, and keeps what is odd in them.
#[derive(Drop)]
pub struct TextReader {
    pub alloc: Global,
    /// What is odd in the texts that were read, in their order.
    pub warnings: Vec<Remark>,
}

impl TextReader {
    /// A reader that has read nothing.
    pub fn new(alloc: Global) -> TextReader {
        TextReader {
            alloc,
            warnings: Vec::new(alloc),
        }
    }

    /// Warns of a place of a text.
    ///
    /// # Errors
    ///
    /// Where memory is refused.
    pub fn warn<W: fmt::Display>(
        &mut self,
        text: TextName,
        place: FaultPlace,
        what: &W,
    ) -> Result<(), AllocError> {
        let message = format!(in self.alloc; "{what}")?;
        self.warnings.push(Remark {
            text,
            place,
            message,
        })?;
        Ok(())
    }

    /// Warns of a part of a text's JSON.
    pub(crate) fn warn_of_part<P: fmt::Display, W: fmt::Display>(
        &mut self,
        text: TextName,
        pointer: &P,
        what: &W,
    ) -> Result<(), AllocError> {
        let place = FaultPlace::at_pointer(self.alloc, pointer)?;
        self.warn(text, place, what)
    }
}

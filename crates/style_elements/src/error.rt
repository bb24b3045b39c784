//! Why a text is no style or no locale.
use crate::fault::Fault;
use std::error::Error;
use std::fmt;
use style_xml::error::Place;

/// Why a text is no style or no locale.
#[derive(Debug, Drop)]
pub enum StyleError {
    /// The text is no XML document that is read.
    Malformed(style_xml::error::Fault, Place),
    /// The document is no style or no locale of CSL 1.0.2.
    Refused(Fault, Place),
    /// Memory was refused.
    OutOfMemory,
}

impl fmt::Display for StyleError {
    fn fmt<W: fmt::Write>(&self, f: &mut fmt::Formatter<W>) -> fmt::Result {
        match self {
            StyleError::Malformed(fault, place) => {
                write!(f, "line {}, column {}: {fault}", place.line, place.column)
            }
            StyleError::Refused(fault, place) => {
                write!(f, "line {}, column {}: {fault}", place.line, place.column)
            }
            StyleError::OutOfMemory => f.write_str("out of memory"),
        }
    }
}

impl Error for StyleError {}

//! Why a document of `cite_run` has no answer, though it is of its form.
use csl_driver::error::RingLocation;
use std::fmt;

/// Why a document has no answer, though it is of its form.
#[derive(Clone, Copy, Debug)]
pub enum DocumentError {
    /// Macros of a style call each other in a ring: where the first such style is asked for, and
    /// its first macro on a ring.
    MacroRing {
        place: RingLocation,
        macro_index: usize,
    },
    /// The numbers of citations don't fit.
    NumberOverflow,
    /// The elements of a layout nest deeper than this limit.
    TooDeep(usize),
    /// A layout has more elements than this limit.
    TooManyElements(usize),
}

impl DocumentError {
    /// Its exit status.
    pub fn status(&self) -> u8 {
        match self {
            DocumentError::MacroRing { .. } => 3,
            DocumentError::NumberOverflow => 4,
            DocumentError::TooDeep(_) => 7,
            DocumentError::TooManyElements(_) => 8,
        }
    }
}

impl fmt::Display for DocumentError {
    fn fmt<W: fmt::Write>(&self, f: &mut fmt::Formatter<W>) -> fmt::Result {
        match self {
            DocumentError::MacroRing { place, macro_index } => {
                f.write_str("the macros of the style of ")?;
                write_place(f, *place)?;
                write!(
                    f,
                    " call each other in a ring, macro {macro_index} the first"
                )
            }
            DocumentError::NumberOverflow => f.write_str("the citation numbers don't fit 64 bits"),
            DocumentError::TooDeep(depth) => {
                write!(f, "the elements of a layout nest deeper than {depth}")?;
                f.write_str(" (--depth raises the limit)")
            }
            DocumentError::TooManyElements(elements) => {
                write!(f, "a layout has more elements than {elements}")?;
                f.write_str(" (--elements raises the limit)")
            }
        }
    }
}

fn write_place<W: fmt::Write>(f: &mut fmt::Formatter<W>, place: RingLocation) -> fmt::Result {
    match place {
        RingLocation::Request(request) => write!(f, "request {request}"),
        RingLocation::Bibliography => f.write_str("the bibliography"),
    }
}

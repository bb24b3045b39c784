//! Where reading stops, before the place is known.
ghost use Rattle.std.specs.Prelude.{◌≡◌, ◌+◌, ◌≤◌, length};
ghost use Rattle.style_xml.specs.Places.{IsErrorIn};

use crate::characters::is_allowed;
use crate::error::{Fault, Wanted, XmlError, place_at};
use crate::limits::MAX_FOUND;
use std::alloc::{AllocError, AllocFailed, Global};

/// Why reading stops.
#[derive(Debug, Drop)]
pub(crate) enum Stop {
    /// Something else is wanted at the place behind which so many bytes of the text are left.
    At { wanted: Wanted, left: usize },
    OutOfMemory,
}

impl Stop {
    /// At the rest of the text, something else is wanted.
    pub(crate) fn at(wanted: Wanted, rest: &str) -> Stop {
        Stop::At {
            wanted,
            left: rest.len(),
        }
    }

    /// The error, of the text in which this is.
    pub(crate) fn in_text(self, alloc: Global, text: &str) -> XmlError
        ensures { IsErrorIn text.now result }
    {
        let Stop::At { wanted, left } = self else {
            return XmlError::OutOfMemory;
        };
        let offset = text.len().saturating_sub(left);
        match found_at(alloc, text, offset) {
            Ok(found) => XmlError::Malformed(Fault { wanted, found }, place_at(text, offset)),
            Err(_) => XmlError::OutOfMemory,
        }
    }
}

/// What stands at an offset of a text, as `Fault` has it.
fn found_at(alloc: Global, text: &str, offset: usize) -> Result<String, AllocError> {
    let rest = text.get(offset..).unwrap_or("");
    let line = rest.lines().next().unwrap_or("");
    if line.is_empty() && !rest.is_empty() {
        return String::from_str(alloc, "\\n");
    }
    let mut found = String::new(alloc);
    for c in line.chars().take(MAX_FOUND) {
        if c.is_control() || !is_allowed(c) {
            write!(found, "\\u{{{:x}}}", u32::from(c))?;
        } else {
            found.push(c)?;
        }
    }
    Ok(found)
}

impl From<AllocError> for Stop {
    fn from(_error: AllocError) -> Stop {
        Stop::OutOfMemory
    }
}

impl<T: Drop> From<AllocFailed<T>> for Stop {
    fn from(_error: AllocFailed<T>) -> Stop {
        Stop::OutOfMemory
    }
}

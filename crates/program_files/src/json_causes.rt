//! Why a file is no JSON though it may look like it.
use crate::error::CommandError;
use crate::reports::{refused, refused_at};
use program_faults::syntax::TextPlace;
use serde_json::Value;
use std::alloc::{AllocError, Global};
use std::fmt;
use style_xml::error::Place;

/// The byte order mark, U+FEFF, in UTF-8.
const BYTE_ORDER_MARK: &[u8] = b"\xef\xbb\xbf";

/// How many lists and objects may be open at once.
const MAX_DEPTH: usize = 127;

/// Bytes without the byte order mark before them, where they are UTF-8 and have one.
pub fn behind_mark(bytes: &[u8]) -> &[u8] {
    match str::from_utf8(bytes) {
        Ok(text) => text.strip_prefix('\u{feff}').unwrap_or(text).as_bytes(),
        Err(_) => bytes,
    }
}

/// The JSON value of these bytes of a file, which are behind its byte order mark.
///
/// # Errors
///
/// `Refused` where they are no JSON; `OutOfMemory`.
pub fn value_in(alloc: Global, path: &str, bytes: &[u8]) -> Result<Value, CommandError> {
    let text = match str::from_utf8(bytes) {
        Ok(text) => text,
        Err(error) => {
            let byte = error.valid_up_to();
            let why = format!(in alloc; "no UTF-8 from byte {byte}")?;
            return Err(json_refused(alloc, path, bytes, &why)?);
        }
    };
    match Value::from_str(alloc, text) {
        Ok(value) => Ok(value),
        Err(error) if error.is_memory() => Err(CommandError::OutOfMemory),
        Err(_) => Err(json_refused(alloc, path, bytes, &"no JSON")?),
    }
}

/// The JSON value of these bytes; null where they are none, or memory is refused.
pub fn value_or_null(alloc: Global, bytes: &[u8]) -> Value {
    match str::from_utf8(bytes) {
        Ok(text) => Value::from_str(alloc, text).unwrap_or(Value::Null),
        Err(_) => Value::Null,
    }
}

/// What is wrong with a file of JSON, by this report of its reader: at a line and a column, where
/// it is no UTF-8 or no JSON.
///
/// # Errors
///
/// Where memory is refused.
pub fn json_refused<W: fmt::Display>(
    alloc: Global,
    path: &str,
    bytes: &[u8],
    why: &W,
) -> Result<CommandError, AllocError> {
    if let Some(cause) = json_cause(alloc, bytes)? {
        return refused(alloc, path, &cause);
    }
    match str::from_utf8(bytes) {
        Ok(text) => text_refused(alloc, path, text, why),
        Err(error) => refused_at(alloc, path, place_of_byte(bytes, error.valid_up_to()), why),
    }
}

/// The line and the column, in characters, of a byte up to which the bytes are UTF-8.
fn place_of_byte(bytes: &[u8], offset: usize) -> Place {
    let before = behind_mark(bytes.get(..offset).unwrap_or(&[]));
    let before = str::from_utf8(before).unwrap_or("");
    TextPlace::at_byte(before, before.len()).place()
}

/// What is wrong with a text, by this report of its reader.
fn text_refused<W: fmt::Display>(
    alloc: Global,
    path: &str,
    text: &str,
    why: &W,
) -> Result<CommandError, AllocError> {
    match Value::from_str(alloc, text) {
        Ok(_) => refused(alloc, path, why),
        Err(error) if error.is_memory() => Ok(CommandError::OutOfMemory),
        Err(error) if error.is_eof() => {
            syntax_refused(alloc, path, TextPlace::at_byte(text, text.len()))
        }
        Err(error) => {
            let place = TextPlace::at_column(text, error.line(), error.column());
            syntax_refused(alloc, path, place.earlier_fault(text).unwrap_or(place))
        }
    }
}

fn syntax_refused(
    alloc: Global,
    path: &str,
    place: TextPlace<'_>,
) -> Result<CommandError, AllocError> {
    let fault = place.fault();
    let line = place.excerpt(alloc)?;
    let line = line.as_str();
    let why = format!(in alloc; "no JSON: {fault}: `{line}`")?;
    refused_at(alloc, path, place.place(), &why)
}

/// Why bytes are no JSON, where they begin with a byte order mark or nest too deep: the reader
/// reports the place alone.
///
/// # Errors
///
/// Where memory is refused.
pub fn json_cause(alloc: Global, bytes: &[u8]) -> Result<Option<String>, AllocError> {
    let Ok(text) = str::from_utf8(bytes) else {
        return Ok(None);
    };
    match Value::from_str(alloc, text) {
        Ok(_) => Ok(None),
        Err(error) if error.is_memory() => Err(AllocError),
        Err(error) => cause_at(alloc, bytes, error.line(), error.column()),
    }
}

/// Why bytes are no JSON from a place on.
fn cause_at(
    alloc: Global,
    bytes: &[u8],
    line: usize,
    column: usize,
) -> Result<Option<String>, AllocError> {
    if bytes.starts_with(BYTE_ORDER_MARK) {
        return Ok(Some(String::from_str(alloc, "begins with a byte order mark")?));
    }
    if !nests_too_deep(bytes, line, column) {
        return Ok(None);
    }
    Ok(Some(format!(in alloc;
        "nested deeper than {MAX_DEPTH} levels from line {line}, column {column}"
    )?))
}

/// Whether more lists and objects than may be are open at once, up to a place: the line counted
/// from 1, and the bytes of that line.
fn nests_too_deep(bytes: &[u8], line: usize, column: usize) -> bool {
    let mut walk = Walk {
        line: 1,
        column: 0,
        depth: 0,
        is_in_text: false,
        is_escaped: false,
    };
    for byte in bytes {
        if walk.line == line && walk.column == column {
            return false;
        }
        walk = walk.past(*byte);
        if walk.depth > MAX_DEPTH {
            return true;
        }
    }
    false
}

/// What stands before a place of JSON.
#[derive(Clone, Copy)]
struct Walk {
    line: usize,
    column: usize,
    /// How many lists and objects are open.
    depth: usize,
    is_in_text: bool,
    /// Whether the next byte is escaped by a backslash.
    is_escaped: bool,
}

impl Walk {
    /// What follows the next byte.
    fn past(self, byte: u8) -> Walk {
        let walk = Walk {
            column: self.column.saturating_add(1),
            is_escaped: false,
            ..self
        };
        match byte {
            _ if self.is_escaped => walk,
            b'\n' => Walk {
                line: self.line.saturating_add(1),
                column: 0,
                ..walk
            },
            b'"' => Walk {
                is_in_text: !self.is_in_text,
                ..walk
            },
            b'\\' => Walk {
                is_escaped: true,
                ..walk
            },
            _ if self.is_in_text => walk,
            b'[' | b'{' => Walk {
                depth: self.depth.saturating_add(1),
                ..walk
            },
            b']' | b'}' => Walk {
                depth: self.depth.saturating_sub(1),
                ..walk
            },
            _ => walk,
        }
    }
}

//! Files are read.
use crate::error::CommandError;
use crate::reports::refused_at;
use std::alloc::{AllocError, Global};
use std::io::Read;
use std::rt::Files;
use std::{fs, io};
use style_xml::error::XmlError;
use style_xml::reader::read_bytes;

/// How many bytes one read gives at most.
const READ_LENGTH: usize = 65_536;

/// The text of a file of XML; `-` is the standard input.
///
/// # Errors
///
/// `Unreadable`; `Refused` where it is no UTF-8; `OutOfMemory`.
pub fn text_of(
    rt: &(impl Files + Input + AllocGlobal),
    path: &str,
) -> Result<String, CommandError> {
    let bytes = bytes_of(rt, path)?;
    match str::from_utf8(&bytes) {
        Ok(text) => Ok(String::from_str(rt.alloc(), text)?),
        Err(_) => Err(bytes_refused(rt.alloc(), path, &bytes)?),
    }
}

/// Where bytes that are no UTF-8 are no XML.
///
/// # Errors
///
/// Where memory is refused.
pub fn bytes_refused(alloc: Global, path: &str, bytes: &[u8]) -> Result<CommandError, AllocError> {
    match read_bytes(alloc, bytes) {
        Err(XmlError::Malformed(fault, place)) => refused_at(alloc, path, place, &fault),
        _ => Ok(CommandError::OutOfMemory),
    }
}

/// Whether there is no file of this path.
pub fn is_absent(rt: &(impl Files + AllocGlobal), path: &str) -> bool {
    match fs::read(rt, path) {
        Ok(_) => false,
        Err(error) => error.kind() == io::ErrorKind::NotFound,
    }
}

/// The bytes of a file; `-` is the standard input.
///
/// # Errors
///
/// `Unreadable`; `OutOfMemory`.
pub fn bytes_of(
    rt: &(impl Files + Input + AllocGlobal),
    path: &str,
) -> Result<Vec<u8>, CommandError> {
    let read = if path == "-" {
        read_input(rt.alloc(), &mut rt.reader())
    } else {
        fs::read(rt, path)
    };
    match read {
        Ok(bytes) => Ok(bytes),
        Err(error) => Err(unreadable(rt.alloc(), path, &error)?),
    }
}

/// The error of a file that can't be read.
///
/// # Errors
///
/// Where memory is refused.
pub fn unreadable(
    alloc: Global,
    path: &str,
    error: &io::Error,
) -> Result<CommandError, AllocError> {
    if error.kind() == io::ErrorKind::OutOfMemory {
        return Ok(CommandError::OutOfMemory);
    }
    Ok(CommandError::Unreadable {
        path: String::from_str(alloc, path)?,
        why: format!(in alloc; "{error}")?,
    })
}

/// All that a reader has left.
fn read_input<R: Read>(alloc: Global, reader: &mut R) -> io::Result<Vec<u8>> {
    let mut buffer = vec![in alloc; 0u8; READ_LENGTH]?;
    read_by(alloc, reader, &mut buffer)
}

/// All that a reader has left, by reads into a buffer that isn't empty.
fn read_by<R: Read>(alloc: Global, reader: &mut R, buffer: &mut [u8]) -> io::Result<Vec<u8>> {
    let mut bytes = Vec::new(alloc);
    for _ in 0..u64::MAX {
        let count = reader.read(buffer)?;
        if count == 0 {
            return Ok(bytes);
        }
        bytes.extend_from_slice(&buffer[..count])?;
    }
    Err(io::ErrorKind::FileTooLarge.into())
}

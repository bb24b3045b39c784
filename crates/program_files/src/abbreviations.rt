//! The abbreviations of a command.
use crate::error::CommandError;
use crate::files::bytes_of;
use crate::json_causes::{behind_mark, value_in};
use crate::reports::refused;
use cite_json::abbreviations::{AbbreviationsError, abbreviations_of};
use cite_walk::abbreviations::Abbreviations;
use program_command::arguments::Options;
use std::rt::Files;

/// The abbreviations in the file of a command, if it has one.
///
/// # Errors
///
/// `Unreadable`; `Refused` where the file has none; `OutOfMemory`.
pub fn told_abbreviations(
    rt: &(impl Files + Input + AllocGlobal),
    options: &Options,
) -> Result<Option<Abbreviations>, CommandError> {
    let Some(path) = options.abbreviations.as_deref() else {
        return Ok(None);
    };
    let bytes = bytes_of(rt, path)?;
    let value = value_in(rt.alloc(), path, behind_mark(&bytes))?;
    match abbreviations_of(rt.alloc(), &value) {
        Ok(abbreviations) => Ok(Some(abbreviations)),
        Err(AbbreviationsError::Fault(fault)) => Err(refused(rt.alloc(), path, &fault)?),
        Err(AbbreviationsError::OutOfMemory) => Err(CommandError::OutOfMemory),
    }
}

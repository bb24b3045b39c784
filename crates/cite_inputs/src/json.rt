//! JSON texts that no other crate reads.
use crate::error::{CallError, refusal};
use crate::texts::TextName;
use fault_places::place::FaultPlace;
use serde_json::Value;
use std::alloc::Global;
use std::fmt;
use style_xml::error::Place;

/// The JSON value that a text is.
///
/// # Errors
///
/// `Fault` where it is none; `OutOfMemory`.
pub fn json_value(alloc: Global, name: TextName, bytes: &[u8]) -> Result<Value, CallError> {
    let text = match str::from_utf8(bytes) {
        Ok(text) => text,
        Err(error) => return Err(no_utf8(alloc, name, error.valid_up_to())),
    };
    match Value::from_str(alloc, text) {
        Ok(value) => Ok(value),
        Err(error) if error.is_memory() => Err(CallError::OutOfMemory),
        Err(error) => Err(no_json(alloc, name, error.line(), error.column())),
    }
}

/// The error of a text of JSON that is no UTF-8 from this byte on.
pub(crate) fn no_utf8(alloc: Global, name: TextName, byte: usize) -> CallError {
    no_utf8_at(alloc, name, FaultPlace::Whole, byte)
}

/// The error of a text that is no UTF-8 from this byte on, which is reported at this place.
pub(crate) fn no_utf8_at(
    alloc: Global,
    name: TextName,
    place: FaultPlace,
    byte: usize,
) -> CallError {
    match format!(in alloc; "no UTF-8 from byte {byte}") {
        Ok(why) => refusal(alloc, name, place, &why),
        Err(_) => CallError::OutOfMemory,
    }
}

/// The error of a text that is no JSON from this place on.
pub(crate) fn no_json(alloc: Global, name: TextName, line: usize, column: usize) -> CallError {
    let place = FaultPlace::Line(Place { line, column });
    refusal(alloc, name, place, &"no JSON")
}

/// The error of a part of JSON that isn't what is wanted there.
pub fn wrong_part<P: fmt::Display, W: fmt::Display>(
    alloc: Global,
    name: TextName,
    pointer: &P,
    why: &W,
) -> CallError {
    match FaultPlace::at_pointer(alloc, pointer) {
        Ok(place) => refusal(alloc, name, place, why),
        Err(_) => CallError::OutOfMemory,
    }
}

/// The error of an item of a list of JSON that isn't what is wanted at its place, from 0.
pub fn wrong_item<W: fmt::Display>(
    alloc: Global,
    name: TextName,
    place: usize,
    why: &W,
) -> CallError {
    match format!(in alloc; "/{place}") {
        Ok(pointer) => refusal(alloc, name, FaultPlace::Pointer(pointer), why),
        Err(_) => CallError::OutOfMemory,
    }
}

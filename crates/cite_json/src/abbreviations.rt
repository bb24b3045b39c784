//! Abbreviations read from JSON, in the form that pandoc and Zotero have for them.
use cite_walk::abbreviations::Abbreviations;
use reference_json::fault::{Pointer, Step};
use serde_json::{Map, Value};
use std::alloc::{AllocError, AllocFailed, Global};
use std::fmt;
use style_file::variable::TextVariable;
use thiserror::Error;

/// The key of the abbreviations that hold for all items.
const DEFAULT: &str = "default";

/// What is wanted.
#[derive(Clone, Copy, Debug, PartialEq, Eq)]
pub enum WantedAbbreviations {
    /// An object that has one under `default`.
    Whole,
    /// An object of variables.
    Variables,
    /// An object of short forms.
    ShortForms,
    /// A short form, which is a text.
    ShortForm,
}

/// A part of the JSON that is not of its form.
#[derive(Debug, Drop)]
pub struct AbbreviationFault {
    /// The way to the part.
    pub pointer: Pointer,
    pub wanted: WantedAbbreviations,
}

/// Why no abbreviations are read.
#[derive(Debug, Drop, Error)]
pub enum AbbreviationsError {
    /// The JSON is no object of abbreviations.
    #[error("{0}")]
    Fault(AbbreviationFault),
    #[error("out of memory")]
    OutOfMemory,
}

impl From<AllocError> for AbbreviationsError {
    fn from(_error: AllocError) -> AbbreviationsError {
        AbbreviationsError::OutOfMemory
    }
}

impl<T: Drop> From<AllocFailed<T>> for AbbreviationsError {
    fn from(_error: AllocFailed<T>) -> AbbreviationsError {
        AbbreviationsError::OutOfMemory
    }
}

impl fmt::Display for WantedAbbreviations {
    fn fmt<W: fmt::Write>(&self, f: &mut fmt::Formatter<W>) -> fmt::Result {
        f.write_str(match self {
            WantedAbbreviations::Whole => "wanted an object of abbreviations with a key `default`",
            WantedAbbreviations::Variables => "wanted an object of variables",
            WantedAbbreviations::ShortForms => "wanted an object of short forms",
            WantedAbbreviations::ShortForm => "wanted a short form, which is a text",
        })
    }
}

impl fmt::Display for AbbreviationFault {
    fn fmt<W: fmt::Write>(&self, f: &mut fmt::Formatter<W>) -> fmt::Result {
        let pointer = &self.pointer;
        let wanted = &self.wanted;
        if pointer.steps.is_empty() {
            write!(f, "{wanted}")
        } else {
            write!(f, "{pointer}: {wanted}")
        }
    }
}

/// The abbreviations of a JSON value: an object with one under `default`, which has an object for
/// each variable, of short forms by the texts that they stand for. What stands under other keys
/// than `default`, and what is of no text variable of CSL, is left out.
///
/// # Errors
///
/// `Fault` with the first part that is not of its form; `OutOfMemory`.
pub fn abbreviations_of(alloc: Global, value: &Value) -> Result<Abbreviations, AbbreviationsError> {
    let mut abbreviations = Abbreviations::new(alloc);
    let Some(default) = value.get(DEFAULT) else {
        return Err(refusal(alloc, &[], WantedAbbreviations::Whole)?);
    };
    let Some(variables) = default.as_object() else {
        return Err(refusal(alloc, &[DEFAULT], WantedAbbreviations::Variables)?);
    };
    for name in variables.keys() {
        if let Some(table) = variables.get(name.as_str()) {
            add_table(alloc, &mut abbreviations, name.as_str(), table)?;
        }
    }
    Ok(abbreviations)
}

/// Adds the short forms of the variable of this name.
fn add_table(
    alloc: Global,
    abbreviations: &mut Abbreviations,
    name: &str,
    table: &Value,
) -> Result<(), AbbreviationsError> {
    let Some(short_forms) = table.as_object() else {
        let place = [DEFAULT, name];
        return Err(refusal(alloc, &place, WantedAbbreviations::ShortForms)?);
    };
    for long in short_forms.keys() {
        let Some(short) = text_at(short_forms, long.as_str()) else {
            let place = [DEFAULT, name, long.as_str()];
            return Err(refusal(alloc, &place, WantedAbbreviations::ShortForm)?);
        };
        if let Some(variable) = TextVariable::of_name(name) {
            abbreviations.add(alloc, variable, long.as_str(), short)?;
        }
    }
    Ok(())
}

/// The text at a key, if it is one.
fn text_at<'v>(object: &'v Map<String, Value>, key: &str) -> Option<&'v str> {
    match object.get(key) {
        Some(Value::String(text)) => Some(text.as_str()),
        _ => None,
    }
}

/// The error of what is not of its form, to which these keys lead.
fn refusal(
    alloc: Global,
    keys: &[&str],
    wanted: WantedAbbreviations,
) -> Result<AbbreviationsError, AllocError> {
    let mut steps = Vec::new(alloc);
    for key in keys {
        steps.push(Step::Key(String::from_str(alloc, *key)?))?;
    }
    let pointer = Pointer { steps };
    Ok(AbbreviationsError::Fault(AbbreviationFault { pointer, wanted }))
}

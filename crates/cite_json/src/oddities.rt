//! What is odd in a cite.
use crate::warning::{ValueKind, WarningKind};
use serde_json::{Map, Value};
use style_file::locator::LocatorType;

/// What an object of the JSON is.
#[derive(Clone, Copy)]
pub(crate) enum Holder {
    Citation,
    /// The properties of a citation.
    Properties,
    Cite,
}

/// What is odd at a key of an object.
pub(crate) fn oddity_of(
    holder: Holder,
    object: &Map<String, Value>,
    key: &str,
) -> Option<WarningKind> {
    let kind = match kind_of_key(holder, key) {
        Some(kind) => kind,
        None => return Some(WarningKind::UnknownKey),
    };
    let value = object.get(key)?;
    if !is_of_kind(value, kind) {
        return Some(WarningKind::OtherValue(kind));
    }
    if key == "label" && !names_locator(value) {
        return Some(WarningKind::UnknownLocator);
    }
    None
}

fn kind_of_key(holder: Holder, key: &str) -> Option<ValueKind> {
    match holder {
        Holder::Citation => match key {
            "schema" | "citationID" => Some(ValueKind::Text),
            "citationItems" => Some(ValueKind::List),
            "properties" => Some(ValueKind::Object),
            _ => None,
        },
        Holder::Properties => match key {
            "noteIndex" => Some(ValueKind::NoteNumber),
            "unsorted" => Some(ValueKind::Flag),
            _ => None,
        },
        Holder::Cite => match key {
            "id" | "locator" | "label" | "prefix" | "suffix" => Some(ValueKind::Text),
            "suppress-author" | "author-only" | "hidden" => Some(ValueKind::Flag),
            "note" => Some(ValueKind::NoteNumber),
            _ => None,
        },
    }
}

fn is_of_kind(value: &Value, kind: ValueKind) -> bool {
    match (kind, value) {
        (ValueKind::Text, Value::String(_) | Value::Number(_)) => true,
        (ValueKind::Flag, Value::Bool(_)) => true,
        (ValueKind::List, Value::Array(_)) => true,
        (ValueKind::Object, Value::Object(_)) => true,
        (ValueKind::NoteNumber, _) => note_number(value).is_some(),
        _ => false,
    }
}

/// The number of a note that a value is.
pub(crate) fn note_number(value: &Value) -> Option<usize> {
    let number = value.as_u64()?;
    usize::try_from(number).ok()
}

fn names_locator(value: &Value) -> bool {
    match value {
        Value::String(name) => LocatorType::of_name(name.as_str()).is_some(),
        _ => false,
    }
}

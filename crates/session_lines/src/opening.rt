//! The texts of a session that a line opens.
use cite_session::texts::SessionTexts;
use serde_json::Value;
use std::alloc::{AllocError, Global};

/// The members of what a line opens a session by.
const KEYS: [&str; 3] = ["style", "locales", "options"];

/// The texts of a session that a line opens.
#[derive(Drop)]
pub(crate) struct Opening {
    style: String,
    /// The list of locale files, as JSON.
    locales: String,
    /// The options, as JSON.
    options: String,
}

impl Opening {
    /// The texts of a JSON object, which has the text of a style file as `style`. None where it is
    /// no such object.
    ///
    /// # Errors
    ///
    /// Where memory is refused.
    pub fn read(alloc: Global, value: &str) -> Result<Option<Opening>, AllocError> {
        let value = match Value::from_str(alloc, value) {
            Ok(value) if has_known_keys(&value) => value,
            Err(error) if error.is_memory() => return Err(AllocError),
            _ => return Ok(None),
        };
        let Some(Value::String(style)) = value.get("style") else {
            return Ok(None);
        };
        Ok(Some(Opening {
            style: style.clone()?,
            locales: json_at(alloc, &value, "locales")?,
            options: json_at(alloc, &value, "options")?,
        }))
    }

    /// The texts.
    pub fn texts(&self) -> SessionTexts<'_> {
        SessionTexts {
            style: self.style.as_bytes(),
            locales: self.locales.as_bytes(),
            options: self.options.as_bytes(),
        }
    }
}

/// Whether a value is an object of no other members than those of an opening.
fn has_known_keys(value: &Value) -> bool {
    let Some(members) = value.as_object() else {
        return false;
    };
    for key in members.keys() {
        if !KEYS.contains(&key.as_str()) {
            return false;
        }
    }
    true
}

/// What stands in an object under a name, as JSON; an empty text where there is nothing.
fn json_at(alloc: Global, value: &Value, name: &str) -> Result<String, AllocError> {
    match value.get(name) {
        Some(part) => part.to_string(alloc),
        None => Ok(String::new(alloc)),
    }
}

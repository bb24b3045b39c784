//! What pages of an answer have of its document.
use program_pages::page::anchor;
use serde_json::Value;
use std::alloc::{AllocError, Global};
use style_english::language::DEFAULT_LANGUAGE;

/// For each request of a document the ids of the items of its cites, in their order.
///
/// # Errors
///
/// Where memory is refused.
pub(crate) fn targets_of(alloc: Global, document: &Value) -> Result<Vec<Vec<String>>, AllocError> {
    let mut all = Vec::new(alloc);
    for request in list_at(document, "requests") {
        let mut targets = Vec::new(alloc);
        for item in list_at(request, "items") {
            targets.push(anchor(alloc, text_at(item, "entry").unwrap_or(""))?)?;
        }
        all.push(targets)?;
    }
    Ok(all)
}

/// The tag of the language of a document: that of its bibliography, or else of the style of that.
pub(crate) fn language_of(document: &Value) -> &str {
    let Some(bibliography) = document.get("bibliography") else {
        return DEFAULT_LANGUAGE;
    };
    if let Some(told) = text_at(bibliography, "locale") {
        return told;
    }
    let name = text_at(bibliography, "style").unwrap_or("");
    let style = document.get("styles").and_then(|styles| styles.get(name));
    style
        .and_then(|style| text_at(style, "default_locale"))
        .unwrap_or(DEFAULT_LANGUAGE)
}

fn list_at<'v>(object: &'v Value, key: &str) -> &'v [Value] {
    match object.get(key) {
        Some(Value::Array(items)) => items.as_slice(),
        _ => &[],
    }
}

/// The text at a key of an object, if there is one.
pub(crate) fn text_at<'v>(object: &'v Value, key: &str) -> Option<&'v str> {
    match object.get(key) {
        Some(Value::String(text)) => Some(text.as_str()),
        _ => None,
    }
}

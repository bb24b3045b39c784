//! The styles by their names.
use crate::author_date::AUTHOR_DATE;
use crate::labels::LABELS;
use crate::notes::NOTES;
use crate::numeric::NUMERIC;

/// The names of the styles, in the order of the alphabet.
pub const NAMES: &[&str] = &["author-date", "labels", "notes", "numeric"];

/// The file of the style of this name, if there is one.
pub fn style_named(name: &str) -> Option<&'static str> {
    match name {
        "author-date" => Some(AUTHOR_DATE),
        "labels" => Some(LABELS),
        "notes" => Some(NOTES),
        "numeric" => Some(NUMERIC),
        _ => None,
    }
}

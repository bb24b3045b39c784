//! Texts of an item that are read as they stand, though they look as if something else was meant.
use crate::place::Place;
use crate::reader::Reader;
use crate::warning::WarningKind;
use serde_json::Value;
use std::alloc::AllocError;
use style_file::variable::{TextVariable, Variable};

/// Characters as HTML and XML have them.
const ESCAPES: &[&str] = &["&amp;", "&lt;", "&gt;", "&quot;", "&apos;", "&#"];

/// What stands before a DOI where there is more than it.
const RESOLVERS: &[&str] = &[
    "http://",
    "https://",
    "doi:",
    "DOI:",
    "doi.org/",
    "dx.doi.org/",
];

impl Reader {
    /// Warns of what is odd in the text under a key of an item.
    pub(crate) fn warn_of_text(
        &mut self,
        place: &Place,
        key: &str,
        value: &Value,
    ) -> Result<(), AllocError> {
        let Value::String(text) = value else {
            return Ok(());
        };
        match oddity_of(key, text.as_str().trim_start()) {
            Some(kind) => self.warn(place, kind),
            None => Ok(()),
        }
    }
}

/// What is odd in the text of a key that names a variable. An abstract, which hardly any style
/// writes, may have anything.
fn oddity_of(key: &str, text: &str) -> Option<WarningKind> {
    match Variable::of_name(key)? {
        Variable::Text(TextVariable::Abstract) | Variable::Date(_) | Variable::Name(_) => None,
        Variable::Text(TextVariable::Doi) if begins_with_any(text, RESOLVERS) => {
            Some(WarningKind::ResolverInDoi)
        }
        _ if ESCAPES.iter().any(|escape| text.contains(*escape)) => {
            Some(WarningKind::EscapedCharacter)
        }
        _ => None,
    }
}

fn begins_with_any(text: &str, beginnings: &[&str]) -> bool {
    beginnings
        .iter()
        .any(|beginning| text.starts_with(*beginning))
}

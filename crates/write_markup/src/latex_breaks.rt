//! Where lines may break in an address that is shown.
use std::alloc::{AllocError, Global};

/// Whether a text is an address: a URL or a DOI.
pub(crate) fn is_address(text: &str) -> bool {
    let is_word = !text.chars().any(|c| c.is_whitespace());
    is_word && (has_name_behind_scheme(text) || is_doi(text))
}

fn has_name_behind_scheme(text: &str) -> bool {
    match text.split_once("://") {
        Some((scheme, name)) => is_scheme(scheme) && !name.is_empty(),
        None => false,
    }
}

fn is_scheme(scheme: &str) -> bool {
    scheme.eq_ignore_ascii_case("http") || scheme.eq_ignore_ascii_case("https")
}

fn is_doi(text: &str) -> bool {
    match text.strip_prefix("10.") {
        Some(number) => number.starts_with(|c: char| c.is_ascii_digit()) && number.len() > 1,
        None => false,
    }
}

/// The LaTeX of an address, whose lines may break after its signs.
///
/// # Errors
///
/// Where memory is refused.
pub(crate) fn with_breaks(alloc: Global, latex: &str) -> Result<String, AllocError> {
    let mut out = String::new(alloc);
    let mut before = Before::Letter;
    for c in latex.chars() {
        if before.may_break(c) {
            out.push_str("\\allowbreak{}")?;
        }
        out.push(c)?;
        before = before.behind(c);
    }
    Ok(out)
}

/// What stands before a place in the LaTeX of an address.
#[derive(Clone, Copy, PartialEq, Eq)]
enum Before {
    Letter,
    Backslash,
    /// A sign of addresses.
    Sign,
    /// An underscore with its backslash.
    Underscore,
}

impl Before {
    /// Whether a line may break before this letter: never between signs, nor at a brace.
    fn may_break(self, c: char) -> bool {
        matches!(self, Before::Sign | Before::Underscore) && !is_sign(c) && !matches!(c, '{' | '}')
    }

    /// What stands before the next place, after this letter.
    fn behind(self, c: char) -> Before {
        match c {
            '\\' => Before::Backslash,
            '_' if self == Before::Backslash => Before::Underscore,
            _ if is_sign(c) => Before::Sign,
            _ => Before::Letter,
        }
    }
}

fn is_sign(c: char) -> bool {
    matches!(c, '/' | '.' | '?' | '=' | '&' | ':' | '-')
}

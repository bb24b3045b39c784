//! Letters that Markdown reads as its own.
use std::alloc::{AllocError, Global};

/// A text after this letter, in a paragraph, with nothing in it that Markdown reads as anything
/// but its letters. An ampersand is an entity, since not every Markdown reads `\&` as one.
///
/// # Errors
///
/// Where memory is refused.
pub(crate) fn escaped(
    alloc: Global,
    text: &str,
    before: Option<char>,
) -> Result<String, AllocError> {
    let letters: Vec<char> = text.chars().collect(alloc)?;
    let mut escaped = String::new(alloc);
    for (place, c) in letters.iter().enumerate() {
        if *c == '&' {
            escaped.push_str("&amp;")?;
            continue;
        }
        let is_repeated = place == 0 && is_dash_or_dot(*c) && before == Some(*c);
        if is_repeated || is_special(*c) || is_special_there(&letters, place, *c) {
            escaped.push('\\')?;
        }
        escaped.push(*c)?;
    }
    Ok(escaped)
}

/// Whether two of a letter are a dash, or three an ellipsis.
fn is_dash_or_dot(c: char) -> bool {
    matches!(c, '-' | '.')
}

/// Whether Markdown may read a letter as its own anywhere.
fn is_special(c: char) -> bool {
    matches!(
        c,
        '\\' | '`' | '*' | '_' | '{' | '}' | '[' | ']' | '<' | '>' | '#' | '|'
    ) || matches!(c, '~' | '^' | '$' | '@' | '!' | '"' | '\'')
}

/// Whether Markdown may read a letter as its own at its place: in dashes, ellipses, addresses and
/// names of symbols.
fn is_special_there(letters: &[char], place: usize, c: char) -> bool {
    match c {
        '-' => is_before(letters, place, "-"),
        '.' => is_before(letters, place, ".") || is_before(letters, place, "www"),
        ':' => begins_address(letters, place) || begins_symbol(letters, place),
        _ => false,
    }
}

/// Whether these letters stand before a place: all are the same letter.
fn is_before(letters: &[char], place: usize, wanted: &str) -> bool {
    let mut at = place;
    for c in wanted.chars() {
        let Some(before) = at.checked_sub(1) else {
            return false;
        };
        if letters.get(before) != Some(&c) {
            return false;
        }
        at = before;
    }
    true
}

/// Whether two slashes follow a colon.
fn begins_address(letters: &[char], place: usize) -> bool {
    is_before(letters, place.saturating_add(3), "//")
}

/// Whether a word follows a colon, and a colon that.
fn begins_symbol(letters: &[char], place: usize) -> bool {
    let mut has_word = false;
    for c in letters.iter().skip(place.saturating_add(1)) {
        if *c == ':' {
            return has_word;
        }
        if !c.is_alphanumeric() && !matches!(*c, '_' | '+' | '-') {
            return false;
        }
        has_word = true;
    }
    false
}

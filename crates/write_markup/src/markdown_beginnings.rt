//! What begins a paragraph.
use std::alloc::{AllocError, Global};

/// The text with no mark of a list, a block of code and the like at its beginning.
///
/// # Errors
///
/// Where memory is refused.
pub(crate) fn begun(alloc: Global, text: &str) -> Result<String, AllocError> {
    let letters = text.trim_start_matches(' ');
    let space = if letters.len() < text.len() { " " } else { "" };
    let Some(mark) = mark_of(letters) else {
        return format!(in alloc; "{space}{letters}");
    };
    let before = letters.strip_suffix(mark).unwrap_or("");
    format!(in alloc; "{space}{before}\\{mark}")
}

/// A text from the mark on that makes it an item of a list, or the like.
fn mark_of(text: &str) -> Option<&str> {
    if text.starts_with(is_bullet) {
        return Some(text);
    }
    let number = text.strip_prefix('(').unwrap_or(text);
    mark_behind_number(number).or(mark_behind_capital(number))
}

fn is_bullet(c: char) -> bool {
    matches!(c, '-' | '+' | '=' | ':' | '%')
}

/// What follows a number, in digits or letters, where that is a mark with white space after it.
fn mark_behind_number(text: &str) -> Option<&str> {
    let mark = behind_number(text)?;
    let behind = mark.strip_prefix(is_list_mark)?;
    (behind.is_empty() || behind.starts_with(is_white)).then_some(mark)
}

/// What follows a number in digits or Roman numerals, or a small letter.
fn behind_number(text: &str) -> Option<&str> {
    let behind_digits = text.trim_start_matches(is_digit);
    if behind_digits.len() < text.len() {
        return Some(behind_digits);
    }
    let behind_small = text.trim_start_matches(is_small_numeral);
    if is_long(text, behind_small) {
        return Some(behind_small);
    }
    let behind_large = text.trim_start_matches(is_large_numeral);
    if is_long(text, behind_large) {
        return Some(behind_large);
    }
    text.strip_prefix(is_small_letter)
}

/// Whether a text has two letters of one byte or more before these.
fn is_long(text: &str, behind: &str) -> bool {
    text.len() >= behind.len().saturating_add(2)
}

/// What follows a capital, where that is a bracket, or a dot with two spaces after it.
fn mark_behind_capital(text: &str) -> Option<&str> {
    let mark = text.strip_prefix(is_large_letter)?;
    if mark.starts_with(')') {
        return Some(mark);
    }
    let behind = mark.strip_prefix('.')?;
    let second = behind.strip_prefix(is_white)?;
    second.starts_with(is_white).then_some(mark)
}

fn is_list_mark(c: char) -> bool {
    matches!(c, '.' | ')')
}

fn is_white(c: char) -> bool {
    c.is_whitespace()
}

fn is_digit(c: char) -> bool {
    c.is_ascii_digit()
}

fn is_small_letter(c: char) -> bool {
    c.is_ascii_lowercase()
}

fn is_large_letter(c: char) -> bool {
    c.is_ascii_uppercase()
}

fn is_small_numeral(c: char) -> bool {
    matches!(c, 'i' | 'v' | 'x' | 'l' | 'c' | 'd' | 'm')
}

fn is_large_numeral(c: char) -> bool {
    is_small_numeral(c.to_ascii_lowercase()) && c.is_ascii_uppercase()
}

//! Addresses and identifiers.
use crate::source::Source;
use std::alloc::{AllocError, Global};

/// An address or an identifier as it stands in a field: without the commands and escapes of LaTeX.
///
/// # Errors
/// Where memory is refused.
pub fn address_of(alloc: Global, text: &str) -> Result<String, AllocError> {
    let mut source = Source::new(bare(text.trim()));
    let mut out = String::new(alloc);
    for _ in 0..text.len() {
        if let Some(c) = take_escaped(&mut source) {
            out.push(c)?;
        } else if let Some(c) = source.take() {
            out.push(c)?;
        } else {
            break;
        }
    }
    Ok(out)
}

/// What stands in the braces of a command for addresses, where the text is nothing else.
fn bare(text: &str) -> &str {
    for command in ["\\url", "\\nolinkurl", "\\path"] {
        if let Some(behind) = text.strip_prefix(command) {
            let inside = behind
                .trim_start()
                .strip_prefix('{')
                .and_then(|inside| inside.strip_suffix('}'));
            return inside.unwrap_or(text).trim();
        }
    }
    text
}

/// Takes the character that is escaped here: by a backslash, in braces, or by its name.
fn take_escaped(source: &mut Source<'_>) -> Option<char> {
    let mut ahead = *source;
    let is_group = ahead.takes("{");
    let c = if ahead.takes("\\textunderscore") {
        ended_name(&mut ahead, '_', is_group)?
    } else if ahead.takes("\\textasciitilde") {
        ended_name(&mut ahead, '~', is_group)?
    } else {
        let is_escaped = ahead.takes("\\");
        let c = ahead.take()?;
        if !(is_group || is_escaped) || !can_be_escaped(c, is_group) {
            return None;
        }
        if is_escaped && !is_group {
            let _ = ahead.takes("{}");
        }
        c
    };
    if is_group && !ahead.takes("}") {
        return None;
    }
    *source = ahead;
    Some(c)
}

/// The character of a command's name, which ends here. It may end by empty braces or by spaces.
fn ended_name(source: &mut Source<'_>, c: char, is_group: bool) -> Option<char> {
    if is_group || source.takes("{}") {
        return Some(c);
    }
    if source.first().is_some_and(|c| c.is_ascii_alphabetic()) {
        return None;
    }
    source.skip_space();
    Some(c)
}

fn can_be_escaped(c: char, is_group: bool) -> bool {
    matches!(c, '_' | '%' | '&' | '#' | '~') || !is_group && matches!(c, '$' | '{' | '}')
}

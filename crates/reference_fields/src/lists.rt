//! Lists of .bib files, and their parts outside braces.
use std::alloc::{AllocError, Global};

/// What separates parts.
#[derive(Clone, Copy)]
pub enum Separator {
    Space,
    /// Space, or a tie.
    Tie,
    Comma,
}

fn separates(c: char, separator: Separator) -> bool {
    match separator {
        Separator::Space => matches!(c, ' ' | '\t' | '\r' | '\n'),
        Separator::Tie => matches!(c, ' ' | '\t' | '\r' | '\n' | '~'),
        Separator::Comma => c == ',',
    }
}

/// The parts between separators outside braces. They may be empty.
pub fn parts_of(alloc: Global, text: &str, separator: Separator) -> Result<Vec<&str>, AllocError> {
    let mut parts = Vec::new(alloc);
    let mut begin: usize = 0;
    let mut depth: usize = 0;
    let mut is_escaped = false;
    for (index, c) in text.char_indices() {
        if !is_escaped && depth == 0 && separates(c, separator) {
            parts.push(text.get(begin..index).unwrap_or(""))?;
            begin = index.saturating_add(1);
        }
        depth = depth_behind(depth, c, is_escaped);
        is_escaped = c == '\\' && !is_escaped;
    }
    parts.push(text.get(begin..).unwrap_or(""))?;
    Ok(parts)
}

/// How many braces are open behind a character.
fn depth_behind(depth: usize, c: char, is_escaped: bool) -> usize {
    match c {
        '{' if !is_escaped => depth.saturating_add(1),
        '}' if !is_escaped => depth.saturating_sub(1),
        _ => depth,
    }
}

fn is_and(word: &str) -> bool {
    word.eq_ignore_ascii_case("and")
}

/// The members of a list, which `and` separates outside braces. The last may be `others`.
///
/// # Errors
/// Where memory is refused.
pub fn members_of(alloc: Global, text: &str) -> Result<Vec<String>, AllocError> {
    let words = parts_of(alloc, text, Separator::Space)?;
    let count = words
        .iter()
        .rev()
        .take_while(|word| word.is_empty() || is_and(**word))
        .count();
    let mut members = Vec::new(alloc);
    let mut member = String::new(alloc);
    for word in words.iter().take(words.len().saturating_sub(count)) {
        if is_and(*word) {
            members.push(member)?;
            member = String::new(alloc);
        } else {
            push_word(&mut member, *word)?;
        }
    }
    members.push(member)?;
    Ok(members)
}

/// Appends a word, behind a space where it isn't the first.
fn push_word(text: &mut String, word: &str) -> Result<(), AllocError> {
    if !text.is_empty() && !word.is_empty() {
        text.push(' ')?;
    }
    text.push_str(word)
}

//! Words.
use std::alloc::{AllocError, Global};

/// The characters from one index up to another.
#[derive(Clone, Copy)]
pub(crate) struct Span {
    pub(crate) begin: usize,
    pub(crate) end: usize,
}

/// Whether an apostrophe stands here, which is part of a word between two letters of it.
fn is_apostrophe(c: char) -> bool {
    matches!(c, '\'' | '’')
}

/// The words: letters and digits, with apostrophes between them.
pub(crate) fn words_of(alloc: Global, letters: &[char]) -> Result<Vec<Span>, AllocError> {
    let mut words = Vec::new(alloc);
    let mut begun: Option<usize> = None;
    for (index, c) in letters.iter().enumerate() {
        let next = letters.get(index.saturating_add(1)).copied();
        let joins = begun.is_some() && is_apostrophe(*c) && next.is_some_and(char_is_of_word);
        let is_inside = char_is_of_word(*c) || joins;
        match begun {
            None if is_inside => begun = Some(index),
            Some(begin) if !is_inside => {
                words.push(Span { begin, end: index })?;
                begun = None;
            }
            _ => {}
        }
    }
    if let Some(begin) = begun {
        words.push(Span {
            begin,
            end: letters.len(),
        })?;
    }
    Ok(words)
}

fn char_is_of_word(c: char) -> bool {
    c.is_alphanumeric()
}

/// The letters of a word; none where it is outside.
pub(crate) fn letters_at(letters: &[char], word: Span) -> &[char] {
    letters.get(word.begin..word.end).unwrap_or(&[])
}

/// Whether a word has small letters and no capitals.
pub(crate) fn is_lower(word: &[char]) -> bool {
    word.iter().any(|c| c.is_lowercase()) && !word.iter().any(|c| c.is_uppercase())
}

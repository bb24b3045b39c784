//! The words of a text. Their case depends on themselves and on what stands before them.
use crate::cases::Span;
use std::alloc::{AllocError, Global};
use unicode::properties::is_grapheme_extend;

/// What stands between a word and the one before it.
#[derive(Clone, Copy, PartialEq, Eq)]
pub(crate) enum Gap {
    /// White space, commas and semicolons alone.
    Running,
    /// Something else: a quote, a bracket, a hyphen, a dash or a period.
    Mark,
    /// A colon, an exclamation mark or a question mark, without white space behind it.
    Ended,
    /// One of these, and then white space.
    Sentence,
}

impl Gap {
    /// The gap with one character more.
    fn with(self, c: char) -> Gap {
        match self {
            Gap::Ended | Gap::Sentence if c.is_whitespace() => Gap::Sentence,
            Gap::Ended | Gap::Sentence => self,
            _ if matches!(c, ':' | '!' | '?') => Gap::Ended,
            Gap::Running if c.is_whitespace() || matches!(c, ',' | ';') => Gap::Running,
            _ => Gap::Mark,
        }
    }
}

/// A word: letters and digits, also with an apostrophe or a period between them.
#[derive(Clone, Copy)]
pub(crate) struct Word {
    pub span: Span,
    /// What stands before it.
    pub gap: Gap,
    /// Whether its letters stay as they are.
    pub is_kept: bool,
}

/// The words of a text in their order. Those that overlap one of `kept`, which stand in their order
/// too, are kept.
pub(crate) fn words(alloc: Global, text: &str, kept: &[Span]) -> Result<Vec<Word>, AllocError> {
    let mut words: Vec<Word> = Vec::new(alloc);
    let mut gap = Gap::Running;
    let mut reach = 0;
    for (start, c) in text.char_indices() {
        let end = start.saturating_add(c.len_utf8());
        if is_of_word(c) {
            push_letter(&mut words, Span { start, end }, gap, reach)?;
            gap = Gap::Running;
            reach = end;
        } else {
            gap = gap.with(c);
            if is_joiner(c) && reach == start {
                reach = end;
            }
        }
    }
    for word in words.iter_mut() {
        word.is_kept = overlaps(kept, word.span);
    }
    Ok(words)
}

fn is_of_word(c: char) -> bool {
    c.is_alphanumeric() || is_grapheme_extend(c)
}

/// Whether a character between two letters makes one word of them.
fn is_joiner(c: char) -> bool {
    matches!(c, '\'' | '’' | 'ʼ' | '`' | '´' | '.' | '·' | '\u{ad}')
}

/// Adds a letter to the last word, where that reaches to it, or as a new word.
fn push_letter(
    words: &mut Vec<Word>,
    letter: Span,
    gap: Gap,
    reach: usize,
) -> Result<(), AllocError> {
    if let Some(last) = words.last_mut() {
        if reach == letter.start {
            last.span.end = letter.end;
            return Ok(());
        }
    }
    words.push(Word {
        span: letter,
        gap,
        is_kept: false,
    })?;
    Ok(())
}

fn overlaps(kept: &[Span], span: Span) -> bool {
    let place = kept.partition_point(|other| other.end <= span.start);
    match kept.get(place) {
        Some(other) => other.start < span.end,
        None => false,
    }
}

//! English titles in sentence case, which CSL asks of its data, from the title case that files of
//! BibTeX have.
use crate::run::Run;
use crate::words::{Span, is_lower, letters_at, words_of};
use std::alloc::{AllocError, Global};

/// How many characters before a word show whether it begins a sentence.
const NEAR: usize = 40;

/// The runs with a capital at the beginning and behind each colon, period, question and exclamation
/// mark, and other words with a single capital at their beginning in small letters. Protected
/// letters stay, and so do words with other capitals, single letters but for the article `A`, and
/// initials.
///
/// # Errors
/// Where memory is refused.
pub fn sentence_case(alloc: Global, runs: &[Run]) -> Result<Vec<Run>, AllocError> {
    let mut letters = Vec::new(alloc);
    let mut are_kept = Vec::new(alloc);
    for run in runs {
        for c in run.text.as_str().chars() {
            letters.push(c)?;
            are_kept.push(run.is_protected)?;
        }
    }
    let mut changed = Vec::new(alloc);
    changed.extend_from_slice(&letters)?;
    for word in &words_of(alloc, &letters)? {
        change_word(&letters, &are_kept, *word, &mut changed);
    }
    with_letters(alloc, runs, &changed)
}

/// The runs with other letters.
fn with_letters(alloc: Global, runs: &[Run], letters: &[char]) -> Result<Vec<Run>, AllocError> {
    let mut made = Vec::with_capacity(alloc, runs.len())?;
    let mut rest = letters;
    for run in runs {
        let count = run.text.as_str().chars().count();
        let (own, behind) = rest.split_at_checked(count).unwrap_or((rest, &[]));
        made.push(Run {
            text: own.iter().copied().collect(alloc)?,
            formats: run.formats.clone()?,
            is_protected: run.is_protected,
        })?;
        rest = behind;
    }
    Ok(made)
}

/// Changes the letters of a word as sentence case has them.
fn change_word(letters: &[char], are_kept: &[bool], word: Span, changed: &mut [char]) {
    let own = letters_at(letters, word);
    let is_first = begins_sentence(letters, word.begin);
    if is_first {
        if is_lower(own) && !is_kept(are_kept, word.begin) {
            if let Some(letter) = changed.get_mut(word.begin) {
                *letter = upper(*letter);
            }
        }
    } else if is_lowered(own, letters.get(word.end).copied()) {
        for index in word.begin..word.end {
            if !is_kept(are_kept, index) {
                if let Some(letter) = changed.get_mut(index) {
                    *letter = lower(*letter);
                }
            }
        }
    }
}

fn is_kept(are_kept: &[bool], index: usize) -> bool {
    are_kept.get(index).copied().unwrap_or(true)
}

/// The letter in capitals, if that is one letter.
fn upper(c: char) -> char {
    let mut letters = c.to_uppercase();
    match (letters.next(), letters.next()) {
        (Some(upper), None) => upper,
        _ => c,
    }
}

/// The small letter, if that is one letter.
fn lower(c: char) -> char {
    let mut letters = c.to_lowercase();
    match (letters.next(), letters.next()) {
        (Some(lower), None) => lower,
        _ => c,
    }
}

/// Whether what follows this index begins a sentence.
fn begins_sentence(letters: &[char], begin: usize) -> bool {
    let first = begin.saturating_sub(NEAR);
    let before = letters.get(first..begin).unwrap_or(&[]);
    let behind_marks = without_end(before, Kind::Opening);
    if first == 0 && behind_marks.iter().all(|c| is_before_all(*c)) {
        return true;
    }
    let behind_space = without_end(behind_marks, Kind::Space);
    if behind_space.len() == behind_marks.len() {
        return false;
    }
    ends_sentence(without_end(behind_space, Kind::Closing))
}

/// Whether letters end with a mark that ends a sentence, and isn't that of an initial.
fn ends_sentence(letters: &[char]) -> bool {
    match letters {
        [.., ':' | '?' | '!'] => true,
        [letter, '.'] => !letter.is_alphabetic(),
        [.., before, letter, '.'] => !letter.is_alphabetic() || before.is_alphanumeric(),
        ['.'] => true,
        _ => false,
    }
}

/// The kinds of characters that stand around the end of a sentence.
#[derive(Clone, Copy)]
enum Kind {
    Opening,
    Space,
    Closing,
}

fn is_of_kind(c: char, kind: Kind) -> bool {
    match kind {
        Kind::Opening => is_opening(c),
        Kind::Space => c.is_whitespace(),
        Kind::Closing => is_closing(c),
    }
}

/// The letters without those of a kind at their end.
fn without_end(letters: &[char], kind: Kind) -> &[char] {
    let count = letters
        .iter()
        .rev()
        .take_while(|c| is_of_kind(**c, kind))
        .count();
    letters
        .get(..letters.len().saturating_sub(count))
        .unwrap_or(letters)
}

fn is_opening(c: char) -> bool {
    matches!(c, '"' | '\'' | '‘' | '“' | '(' | '[')
}

fn is_closing(c: char) -> bool {
    matches!(c, '"' | '\'' | '’' | '”' | ')' | ']')
}

/// Whether the character may stand before the first word of all.
fn is_before_all(c: char) -> bool {
    is_opening(c) || c.is_whitespace() || matches!(c, '¿' | '¡')
}

/// Whether a word in the middle of a sentence has a capital of title case alone.
fn is_lowered(word: &[char], after: Option<char>) -> bool {
    match word {
        ['A'] => after != Some('.'),
        [_] | [] => false,
        [first, others @ ..] => first.is_uppercase() && !others.iter().any(|c| c.is_uppercase()),
    }
}

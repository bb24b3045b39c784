//! Where URLs and DOIs stand in a text.
use std::alloc::{AllocError, Global};

/// Where an address stands in the letters of a text.
#[derive(Clone, Copy)]
pub(crate) struct Span {
    pub kind: Kind,
    pub begin: usize,
    pub end: usize,
}

/// What an address is.
#[derive(Clone, Copy, PartialEq, Eq)]
pub(crate) enum Kind {
    Url,
    Doi,
}

/// How many digits the number of a registrant of DOIs has at least, and at most.
const LEAST_DIGITS: usize = 4;

const MOST_DIGITS: usize = 9;

/// Where addresses stand, in their order, without the punctuation of their sentences. One that a
/// letter or digit follows in the next text, which begins with `after`, isn't whole, and left out.
///
/// # Errors
///
/// Where memory is refused.
pub(crate) fn spans(
    alloc: Global,
    letters: &[char],
    after: Option<char>,
) -> Result<Vec<Span>, AllocError> {
    let mut spans = Vec::new(alloc);
    let mut passed = 0usize;
    for begin in 0..letters.len() {
        if begin < passed {
            continue;
        }
        let Some(kind) = kind_at(letters, begin) else {
            continue;
        };
        passed = end_of_address(letters, begin);
        let end = without_punctuation(letters, begin, passed);
        if end < letters.len() || !after.is_some_and(|c| c.is_alphanumeric()) {
            spans.push(Span { kind, begin, end })?;
        }
    }
    Ok(spans)
}

/// The kind of the address that begins at a place.
fn kind_at(letters: &[char], begin: usize) -> Option<Kind> {
    if is_url(letters, begin) {
        Some(Kind::Url)
    } else if is_doi(letters, begin) {
        Some(Kind::Doi)
    } else {
        None
    }
}

fn is_url(letters: &[char], begin: usize) -> bool {
    let name = behind(letters, begin, "https://").or(behind(letters, begin, "http://"));
    name.is_some_and(|place| is_of_address(letters.get(place)))
}

fn is_doi(letters: &[char], begin: usize) -> bool {
    let before = begin
        .checked_sub(1)
        .and_then(|place| letters.get(place))
        .copied();
    if before.is_some_and(|c| c.is_alphanumeric() || matches!(c, '_' | '.' | '/')) {
        return false;
    }
    let Some(number) = behind(letters, begin, "10.") else {
        return false;
    };
    let digits = digits_at(letters, number);
    let name = behind(letters, number.saturating_add(digits), "/");
    digits >= LEAST_DIGITS && name.is_some_and(|place| is_of_address(letters.get(place)))
}

/// How many digits stand at a place, as far as a registrant may have them.
fn digits_at(letters: &[char], begin: usize) -> usize {
    let mut digits = 0usize;
    for _ in 0..MOST_DIGITS {
        match letters.get(begin.saturating_add(digits)) {
            Some(c) if c.is_ascii_digit() => digits = digits.saturating_add(1),
            _ => return digits,
        }
    }
    digits
}

/// The place after this beginning, in any case, where the letters at a place have it.
fn behind(letters: &[char], begin: usize, beginning: &str) -> Option<usize> {
    let mut place = begin;
    for c in beginning.chars() {
        let letter = letters.get(place)?;
        if letter.to_ascii_lowercase() != c {
            return None;
        }
        place = place.saturating_add(1);
    }
    Some(place)
}

/// Where the letters end that an address may have.
fn end_of_address(letters: &[char], begin: usize) -> usize {
    for place in begin..letters.len() {
        if !is_of_address(letters.get(place)) {
            return place;
        }
    }
    letters.len()
}

/// Whether an address may have a letter. One that isn't there it doesn't have.
fn is_of_address(letter: Option<&char>) -> bool {
    match letter {
        Some(c) => !c.is_whitespace() && !matches!(*c, '<' | '>' | '"' | '“' | '”' | '«' | '»'),
        None => false,
    }
}

/// Where an address ends without the punctuation of its sentence, and without brackets that close
/// none of its own.
fn without_punctuation(letters: &[char], begin: usize, end: usize) -> usize {
    let mut excess = Excess::between(letters, begin, end);
    let mut end = end;
    for _ in begin..end {
        let Some(last) = end.checked_sub(1) else {
            return end;
        };
        match letters.get(last) {
            Some(c) if is_punctuation(*c) || excess.has(*c) => excess.remove(*c),
            _ => return end,
        }
        end = last;
    }
    end
}

fn is_punctuation(c: char) -> bool {
    matches!(c, '.' | ',' | ';' | ':' | '!' | '?' | '\'' | '’')
}

/// How many closing brackets there are more than opening ones.
#[derive(Clone, Copy)]
struct Excess {
    round: i64,
    square: i64,
    curly: i64,
}

impl Excess {
    fn between(letters: &[char], begin: usize, end: usize) -> Excess {
        let mut excess = Excess {
            round: 0,
            square: 0,
            curly: 0,
        };
        for place in begin..end {
            if let Some(c) = letters.get(place) {
                excess.add(*c);
            }
        }
        excess
    }

    /// Counts a letter.
    fn add(&mut self, c: char) {
        match c {
            ')' => self.round = self.round.saturating_add(1),
            '(' => self.round = self.round.saturating_sub(1),
            ']' => self.square = self.square.saturating_add(1),
            '[' => self.square = self.square.saturating_sub(1),
            '}' => self.curly = self.curly.saturating_add(1),
            '{' => self.curly = self.curly.saturating_sub(1),
            _ => {}
        }
    }

    /// Whether a letter is a closing bracket, and there are more of its kind than opening ones.
    fn has(self, c: char) -> bool {
        match c {
            ')' => self.round > 0,
            ']' => self.square > 0,
            '}' => self.curly > 0,
            _ => false,
        }
    }

    /// Counts a closing bracket less.
    fn remove(&mut self, c: char) {
        match c {
            ')' => self.round = self.round.saturating_sub(1),
            ']' => self.square = self.square.saturating_sub(1),
            '}' => self.curly = self.curly.saturating_sub(1),
            _ => {}
        }
    }
}

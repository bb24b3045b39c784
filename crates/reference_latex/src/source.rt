//! What is left of a text that is read.

/// How many bytes there may be between the beginning and the end of a group or of a formula, so
/// that what has no end costs no more.
const FARTHEST: usize = 20_000;

/// How many groups and formulas without an end are looked for in a text.
const MOST_UNENDED: usize = 20;

/// What is left of a text.
#[derive(Clone, Copy)]
pub(crate) struct Source<'s> {
    pub(crate) rest: &'s str,
    /// How many groups and formulas had no end.
    unended: usize,
}

impl<'s> Source<'s> {
    pub(crate) fn new(rest: &'s str) -> Source<'s> {
        Source { rest, unended: 0 }
    }

    pub(crate) fn first(&self) -> Option<char> {
        self.rest.chars().next()
    }

    /// Takes a character.
    pub(crate) fn take(&mut self) -> Option<char> {
        let mut letters = self.rest.chars();
        let first = letters.next();
        self.rest = letters.as_str();
        first
    }

    /// Takes this mark, where the text begins with it.
    pub(crate) fn takes(&mut self, mark: &str) -> bool {
        match self.rest.strip_prefix(mark) {
            Some(behind) => {
                self.rest = behind;
                true
            }
            None => false,
        }
    }

    /// Takes so many bytes.
    pub(crate) fn take_bytes(&mut self, count: usize) -> &'s str {
        let (taken, behind) = self.rest.split_at_checked(count).unwrap_or((self.rest, ""));
        self.rest = behind;
        taken
    }

    /// Takes the white space with which the text begins.
    pub(crate) fn skip_space(&mut self) {
        self.rest = self.rest.trim_start_matches(is_blank);
    }

    /// Takes the letters of a command's name.
    pub(crate) fn take_name(&mut self) -> &'s str {
        let end = self.rest.find(|c: char| !is_of_name(c));
        self.take_bytes(end.unwrap_or(self.rest.len()))
    }

    /// Takes the digits of a number, and its commas and periods.
    pub(crate) fn take_number(&mut self) -> &'s str {
        let end = self.rest.find(|c: char| !is_of_number(c));
        let number = self.rest.get(..end.unwrap_or(self.rest.len()));
        let number = number.unwrap_or("").trim_end_matches(['.', ',']);
        self.take_bytes(number.len())
    }

    /// Takes what stands before a character that may be more than text.
    pub(crate) fn take_plain(&mut self) -> &'s str {
        let end = self.rest.find(is_special);
        self.take_bytes(end.unwrap_or(self.rest.len()))
    }

    /// Takes what stands between braces or brackets, with which the text begins behind white space.
    pub(crate) fn take_group(&mut self) -> Option<&'s str> {
        let behind = self.rest.trim_start_matches(is_blank);
        if self.unended > MOST_UNENDED || !behind.starts_with(['{', '[']) {
            return None;
        }
        match group_at(behind) {
            Some((group, behind)) => {
                self.rest = behind;
                Some(group)
            }
            None => {
                self.unended = self.unended.saturating_add(1);
                None
            }
        }
    }

    /// Takes a formula, with whose sign the text begins.
    pub(crate) fn take_formula(&mut self) -> Option<&'s str> {
        let is_formula = self.rest.starts_with('$') || self.rest.starts_with("\\(");
        if self.unended > MOST_UNENDED || !is_formula {
            return None;
        }
        match formula_at(self.rest) {
            Some((formula, behind)) => {
                self.rest = behind;
                Some(formula)
            }
            None => {
                self.unended = self.unended.saturating_add(1);
                None
            }
        }
    }
}

/// What stands in the group with which the text begins, and what follows it.
fn group_at(text: &str) -> Option<(&str, &str)> {
    let length = if text.starts_with('{') {
        group_length(text, '{', '}')?
    } else {
        group_length(text, '[', ']')?
    };
    let (group, behind) = text.split_at_checked(length)?;
    let mut inside = group.chars();
    let _ = inside.next();
    let _ = inside.next_back();
    Some((inside.as_str(), behind))
}

/// The formula with whose sign the text begins, and what follows it.
fn formula_at(text: &str) -> Option<(&str, &str)> {
    let (inside, end) = match text.strip_prefix('$') {
        Some(inside) => (inside, dollar_end(inside)?),
        None => {
            let inside = text.strip_prefix("\\(")?;
            (inside, near(inside).find("\\)")?)
        }
    };
    let (formula, behind) = inside.split_at_checked(end)?;
    let behind = behind
        .strip_prefix('$')
        .or(behind.strip_prefix("\\)"))
        .unwrap_or(behind);
    Some((formula, behind))
}

/// The beginning of a text in which an end is looked for.
fn near(text: &str) -> &str {
    text.get(..FARTHEST).unwrap_or(text)
}

/// Where the next dollar sign stands that isn't escaped.
fn dollar_end(text: &str) -> Option<usize> {
    let mut is_escaped = false;
    for (index, c) in text.char_indices().take(FARTHEST) {
        if c == '$' && !is_escaped {
            return Some(index);
        }
        is_escaped = c == '\\' && !is_escaped;
    }
    None
}

/// How many bytes a group has, with its braces or brackets.
fn group_length(text: &str, opening: char, closing: char) -> Option<usize> {
    let mut depth: usize = 0;
    let mut is_escaped = false;
    for (index, c) in text.char_indices().take(FARTHEST) {
        if is_escaped {
            is_escaped = false;
        } else if c == '\\' {
            is_escaped = true;
        } else if c == opening {
            depth = depth.saturating_add(1);
        } else if c == closing {
            depth = depth.saturating_sub(1);
            if depth == 0 {
                return Some(index.saturating_add(1));
            }
        }
    }
    None
}

fn is_blank(c: char) -> bool {
    matches!(c, ' ' | '\t' | '\r' | '\n')
}

fn is_of_name(c: char) -> bool {
    c.is_ascii_alphabetic() || c == '@'
}

fn is_of_number(c: char) -> bool {
    matches!(c, '0'..='9' | '.' | ',')
}

/// Whether the character may be more than text.
fn is_special(c: char) -> bool {
    matches!(
        c,
        '\\' | '{' | '}' | '$' | '~' | '\'' | '`' | '-' | '?' | '!' | ','
    )
}

//! Why a text is no JSON from a place on.
use std::alloc::{AllocError, Global};
use std::fmt;
use style_xml::error::Place;

/// How many characters of the line are shown before and behind the place.
const SHOWN: usize = 30;

/// Why a text is no JSON from a place on.
#[derive(Clone, Copy)]
pub enum SyntaxFault {
    /// A number is greater than the greatest of 64 bits with a fraction.
    TooLargeNumber,
    /// The text ends before all lists, objects and texts are closed.
    Unfinished,
    /// A text has no quote at its end.
    NoEndQuote,
    /// A text has a line break, or another control character.
    ControlCharacter,
    /// A backslash stands before what can't be escaped.
    Escape,
    /// Single quotes stand around a text.
    SingleQuote,
    /// A comma stands before the end of a list or an object.
    LastComma(char),
    /// An object's key has no value.
    NoValue,
    /// What follows a value or a key is no comma and no colon.
    NoComma,
    Comment,
    /// A word that isn't `true`, `false` or `null`.
    Word,
    Number,
    /// Any other character.
    Character(char),
}

impl fmt::Display for SyntaxFault {
    fn fmt<W: fmt::Write>(&self, f: &mut fmt::Formatter<W>) -> fmt::Result {
        match self {
            SyntaxFault::TooLargeNumber => f.write_str("the number is too large"),
            SyntaxFault::Unfinished => f.write_str("it ends before all that is open is closed"),
            SyntaxFault::NoEndQuote => f.write_str("no quote ends this text"),
            SyntaxFault::ControlCharacter => {
                f.write_str("no quote ends this text on its line, or it has a control character")
            }
            SyntaxFault::Escape => f.write_str("this text has a backslash that escapes nothing"),
            SyntaxFault::SingleQuote => f.write_str("a text needs double quotes"),
            SyntaxFault::LastComma(c) => write!(f, "there is an extra comma before `{c}`"),
            SyntaxFault::NoValue => f.write_str("the key has no value"),
            SyntaxFault::NoComma => {
                f.write_str("a comma, a colon or a quote is missing before this")
            },
            SyntaxFault::Comment => f.write_str("there are no comments in JSON"),
            SyntaxFault::Word => f.write_str("a text needs quotes"),
            SyntaxFault::Number => f.write_str("this is not how JSON writes a number"),
            SyntaxFault::Character(c) => write!(f, "`{c}` can't stand here"),
        }
    }
}

/// A place of a text.
#[derive(Clone, Copy)]
pub struct TextPlace<'t> {
    /// What stands before it.
    before: &'t str,
    /// What stands there and behind.
    behind: &'t str,
}

impl<'t> TextPlace<'t> {
    /// The place behind so many bytes, or the end where no character ends there.
    pub fn at_byte(text: &'t str, offset: usize) -> TextPlace<'t> {
        let (before, behind) = text.split_at_checked(offset).unwrap_or((text, ""));
        TextPlace { before, behind }
    }

    /// The place at a byte of a line, both counted from 1.
    pub fn at_column(text: &'t str, line: usize, column: usize) -> TextPlace<'t> {
        let mut offset = 0usize;
        for each in text.split('\n').take(line.saturating_sub(1)) {
            offset = offset.saturating_add(each.len()).saturating_add(1);
        }
        TextPlace::at_byte(text, offset.saturating_add(column.saturating_sub(1)))
    }

    /// The earlier place in the text that is wrong already, where a reader reports a later one: a
    /// number that is too large, or a bracket after a colon.
    pub fn earlier_fault(&self, text: &'t str) -> Option<TextPlace<'t>> {
        let place = self
            .before_bracket(text)
            .unwrap_or(self.before_number(text));
        match place.fault() {
            SyntaxFault::TooLargeNumber | SyntaxFault::NoValue => Some(place),
            _ => None,
        }
    }

    /// Where the number begins that stands before this place of the text.
    fn before_number(&self, text: &'t str) -> TextPlace<'t> {
        let before = self
            .before
            .trim_end_matches(|c: char| c == ',' || c.is_whitespace());
        let begin = before.trim_end_matches(|c: char| is_of_number(c)).len();
        TextPlace::at_byte(text, begin)
    }

    /// Where the bracket stands before which there is a colon, and behind which is this place.
    fn before_bracket(&self, text: &'t str) -> Option<TextPlace<'t>> {
        let before = self.before.trim_end();
        let before = before.strip_suffix('}').or(before.strip_suffix(']'))?;
        if before.trim_end().ends_with(':') {
            Some(TextPlace::at_byte(text, before.len()))
        } else {
            None
        }
    }

    /// The line and the column, in characters, both from 1.
    pub fn place(&self) -> Place {
        let lines = self.before.split('\n').count();
        let column = line_end(self.before).chars().count();
        Place {
            line: lines.max(1),
            column: column.saturating_add(1),
        }
    }

    /// The part of the line around the place that is shown, at most 30 characters before it and 30
    /// from it on.
    ///
    /// # Errors
    ///
    /// Where memory is refused.
    pub fn excerpt(&self, alloc: Global) -> Result<String, AllocError> {
        let line = line_end(self.before);
        let skipped = line.chars().count().saturating_sub(SHOWN);
        let mut shown = String::new(alloc);
        for c in line.chars().skip(skipped) {
            shown.push(c)?;
        }
        for c in self.behind.chars().take(SHOWN) {
            if c == '\n' {
                break;
            }
            shown.push(c)?;
        }
        Ok(shown)
    }

    /// Why the text is no JSON from here on.
    pub fn fault(&self) -> SyntaxFault {
        let last = last_character(self.before);
        let behind = self.behind.trim_start();
        let Some(c) = behind.chars().next() else {
            return end_fault(self.before);
        };
        match c {
            '}' | ']' if last == Some(',') => SyntaxFault::LastComma(c),
            '}' | ']' if last == Some(':') => SyntaxFault::NoValue,
            '\'' => SyntaxFault::SingleQuote,
            '/' | '#' => SyntaxFault::Comment,
            '}' | ']' | ',' | ':' => SyntaxFault::Character(c),
            _ if ends_value(last) => SyntaxFault::NoComma,
            '"' => text_fault(behind),
            '0'..='9' | '-' | '+' | '.' => number_fault(behind),
            _ if c.is_alphabetic() => SyntaxFault::Word,
            _ => SyntaxFault::Character(c),
        }
    }
}

/// What follows the last line break.
fn line_end(text: &str) -> &str {
    match text.rsplit_once('\n') {
        Some((_, line)) => line,
        None => text,
    }
}

fn last_character(text: &str) -> Option<char> {
    text.trim_end().chars().next_back()
}

/// Whether a value or a key may end with this character.
fn ends_value(last: Option<char>) -> bool {
    match last {
        Some(c) => matches!(c, '"' | '}' | ']') || c.is_alphanumeric(),
        None => false,
    }
}

/// What is wrong with JSON that ends too early.
fn end_fault(json: &str) -> SyntaxFault {
    let mut is_in_text = false;
    let mut is_escaped = false;
    for c in json.chars() {
        let is_quote = c == '"' && !is_escaped;
        is_escaped = is_in_text && c == '\\' && !is_escaped;
        is_in_text = is_in_text != is_quote;
    }
    if is_in_text {
        SyntaxFault::NoEndQuote
    } else {
        SyntaxFault::Unfinished
    }
}

/// What is wrong with a text, which begins with its first quote.
fn text_fault(text: &str) -> SyntaxFault {
    let mut is_escaped = false;
    for c in text.chars().skip(1) {
        match c {
            _ if c < ' ' => return SyntaxFault::ControlCharacter,
            _ if is_escaped => is_escaped = false,
            '"' => return SyntaxFault::Escape,
            '\\' => is_escaped = true,
            _ => {}
        }
    }
    SyntaxFault::NoEndQuote
}

/// What is wrong with the number with which a text begins.
fn number_fault(text: &str) -> SyntaxFault {
    let number = match text.find(|c: char| !is_of_number(c)) {
        Some(end) => text.get(..end).unwrap_or(text),
        None => text,
    };
    match number.parse::<f64>() {
        Ok(value) if value.is_infinite() => SyntaxFault::TooLargeNumber,
        _ => SyntaxFault::Number,
    }
}

fn is_of_number(c: char) -> bool {
    matches!(c, '0'..='9' | '-' | '+' | '.' | 'e' | 'E')
}

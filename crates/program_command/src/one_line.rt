//! Text of a file on a line.
use std::fmt;

/// A text with a space for each control character, and an escape, as `\u{202e}`, for each that
/// controls the direction of what is shown.
#[derive(Clone, Copy)]
pub struct OneLine<'a>(pub &'a str);

impl<'a> fmt::Display for OneLine<'a> {
    fn fmt<W: fmt::Write>(&self, f: &mut fmt::Formatter<W>) -> fmt::Result {
        for c in self.0.chars() {
            if is_direction(c) {
                write!(f, "\\u{{{:x}}}", u32::from(c))?;
            } else {
                f.write_char(if c.is_control() { ' ' } else { c })?;
            }
        }
        Ok(())
    }
}

/// Whether a character has no look of its own, and turns the direction of others.
pub fn is_direction(c: char) -> bool {
    matches!(
        c,
        '\u{61c}' | '\u{200e}' | '\u{200f}' | '\u{202a}'..='\u{202e}' | '\u{2066}'..='\u{2069}'
    )
}

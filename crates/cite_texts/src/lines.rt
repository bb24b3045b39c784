//! Texts of one line.
ghost use Rattle.std.specs.Prelude.{◌≡◌};
ghost use Rattle.cite_texts.specs.Lines.{is_of_no_line};

use std::alloc::AllocError;

/// Whether a character is a control character or ends a line.
pub fn is_control(c: char) -> bool
    ensures { result ≡ is_of_no_line c }
{
    c.is_control() || matches!(c, '\u{2028}' | '\u{2029}')
}

/// Appends a character to a line. In place of what ends a line, or of a tab, stands a space, where
/// there is none before it; other control characters are left out.
///
/// # Errors
///
/// Where memory is refused.
pub fn push_in_line(line: &mut String, c: char) -> Result<(), AllocError> {
    if !is_control(c) {
        return line.push(c);
    }
    if c.is_whitespace() && !line.is_empty() && !line.as_str().ends_with(' ') {
        line.push(' ')?;
    }
    Ok(())
}

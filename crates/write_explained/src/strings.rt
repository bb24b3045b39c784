//! Texts in JSON and in HTML.
use std::alloc::AllocError;

/// Adds a text as a string of JSON.
///
/// # Errors
///
/// Where memory is refused.
pub(crate) fn push_json(out: &mut String, text: &str) -> Result<(), AllocError> {
    out.push('"')?;
    for c in text.chars() {
        push_json_char(out, c)?;
    }
    out.push('"')
}

fn push_json_char(out: &mut String, c: char) -> Result<(), AllocError> {
    match c {
        '"' => out.push_str("\\\""),
        '\\' => out.push_str("\\\\"),
        '\n' => out.push_str("\\n"),
        '\r' => out.push_str("\\r"),
        '\t' => out.push_str("\\t"),
        _ if c < ' ' => push_control(out, u32::from(c)),
        _ => out.push(c),
    }
}

/// Adds a control character by its number, in JSON.
fn push_control(out: &mut String, code: u32) -> Result<(), AllocError> {
    out.push_str(if code < 16 { "\\u000" } else { "\\u001" })?;
    match char::from_digit(code % 16, 16) {
        Some(digit) => out.push(digit),
        None => Ok(()),
    }
}

/// Adds a number.
///
/// # Errors
///
/// Where memory is refused.
pub(crate) fn push_number(out: &mut String, number: usize) -> Result<(), AllocError> {
    let alloc = *out.allocator();
    out.push_str(format!(in alloc; "{number}")?.as_str())
}

/// Adds a text as it stands in HTML, also in an attribute.
///
/// # Errors
///
/// Where memory is refused.
pub(crate) fn push_html(out: &mut String, text: &str) -> Result<(), AllocError> {
    for c in text.chars() {
        match c {
            '<' => out.push_str("&lt;")?,
            '>' => out.push_str("&gt;")?,
            '&' => out.push_str("&amp;")?,
            '"' => out.push_str("&quot;")?,
            _ => out.push(c)?,
        }
    }
    Ok(())
}

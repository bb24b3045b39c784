//! Text, CDATA sections and attributes' values, as a reader hands them on.
ghost use Rattle.std.specs.Prelude.{◌<◌, ◌≤◌, length, IfOk, IfSome};

use crate::characters::{interrupts_text, interrupts_value, is_allowed};
use crate::error::Wanted;
use crate::scan::split_before;
use crate::stop::Stop;
use std::alloc::{AllocError, Global};

/// The character of these digits.
fn numbered(digits: &str, base: u32) -> Option<char>
    requires lower { 2 ≤ base }
    requires upper { base ≤ 36 }
{
    let mut number: u32 = 0;
    for c in digits.chars() {
        number = number.checked_mul(base)?.checked_add(c.to_digit(base)?)?;
    }
    char::from_u32(number).filter(|c| is_allowed(*c))
}

/// The character for which a reference stands, where the text begins with one, and the rest.
fn reference(text: &str) -> Option<(char, &str)>
    ensures { IfSome result (λ p. length p.1.now < length text.now) }
{
    let (name, rest) = text.strip_prefix('&')?.split_once(';')?;
    let c = match name {
        "lt" => '<',
        "gt" => '>',
        "amp" => '&',
        "quot" => '"',
        "apos" => '\'',
        _ => {
            let number = name.strip_prefix('#')?;
            match number.strip_prefix('x') {
                Some(digits) => numbered(digits, 16)?,
                None => numbered(number, 10)?,
            }
        }
    };
    Some((c, rest))
}

/// Behind a line end, where the text begins with one: a line feed, or a carriage return with or
/// without a line feed behind it.
fn skip_line_end(text: &str) -> Option<&str>
    ensures { IfSome result (λ rest. length rest.now < length text.now) }
{
    match text.strip_prefix('\r') {
        Some(rest) => Some(rest.strip_prefix('\n').unwrap_or(rest)),
        None => text.strip_prefix('\n'),
    }
}

/// Appends the text before the next tag or other markup, and gives the rest, which is empty or
/// begins with the markup. Line ends become line feeds.
pub(crate) fn push_text<'a>(out: &mut String, text: &'a str) -> Result<&'a str, Stop>
    ensures { IfOk result (λ rest. length rest.now ≤ length text.now) }
{
    let mut rest = text;
    'pieces: loop {
        let (plain, special) = split_before(rest, interrupts_text);
        out.push_str(plain)?;
        if special.is_empty() || special.starts_with('<') {
            return Ok(special);
        }
        rest = if let Some(behind) = skip_line_end(special) {
            out.push('\n')?;
            behind
        } else if special.starts_with('&') {
            push_reference(out, special)?
        } else if special.starts_with("]]>") {
            return Err(Stop::at(Wanted::NoSectionEnd, special));
        } else if let Some(behind) = special.strip_prefix(']') {
            out.push(']')?;
            behind
        } else {
            return Err(Stop::at(Wanted::AllowedCharacter, special));
        };
    }
}

/// Appends the character for which the reference stands with which the text begins.
fn push_reference<'a>(out: &mut String, text: &'a str) -> Result<&'a str, Stop>
    ensures { IfOk result (λ rest. length rest.now < length text.now) }
{
    let Some((c, rest)) = reference(text) else {
        return Err(Stop::at(Wanted::Reference, text));
    };
    out.push(c)?;
    Ok(rest)
}

/// Appends the text of a CDATA section. Line ends become line feeds.
pub(crate) fn push_section(out: &mut String, inside: &str) -> Result<(), AllocError> {
    let mut rest = inside;
    'lines: while let Some((line, behind)) = rest.split_once('\r') {
        out.push_str(line)?;
        out.push('\n')?;
        rest = behind.strip_prefix('\n').unwrap_or(behind);
    }
    out.push_str(rest)
}

/// The value of an attribute, with whose quote the text begins, and the rest. Each white space
/// character and each line end becomes a space (XML 1.0, section 3.3.3).
pub(crate) fn value(alloc: Global, text: &str) -> Result<(String, &str), Stop>
    ensures { IfOk result (λ p. length p.1.now < length text.now) }
{
    let quote = if text.starts_with('\'') { '\'' } else { '"' };
    let Some(inside) = text.strip_prefix(quote) else {
        return Err(Stop::at(Wanted::Value, text));
    };
    let mut value = String::new(alloc);
    let mut rest = inside;
    'pieces: loop {
        let (plain, special) = split_before(rest, |c| c == quote || interrupts_value(c));
        value.push_str(plain)?;
        if let Some(behind) = special.strip_prefix(quote) {
            return Ok((value, behind));
        }
        rest = if special.starts_with('&') {
            push_reference(&mut value, special)?
        } else if let Some(behind) = skip_line_end(special) {
            value.push(' ')?;
            behind
        } else if let Some(behind) = special.strip_prefix('\t') {
            value.push(' ')?;
            behind
        } else if special.is_empty() {
            return Err(Stop::at(Wanted::ClosedValue, text));
        } else if special.starts_with('<') {
            return Err(Stop::at(Wanted::NoTag, special));
        } else {
            return Err(Stop::at(Wanted::AllowedCharacter, special));
        };
    }
}

//! Letters that LaTeX reads as its own, or has no glyphs for.
use std::alloc::{AllocError, Global};

/// A text with nothing in it that LaTeX reads as anything but its letters.
///
/// # Errors
///
/// Where memory is refused.
pub(crate) fn escaped(alloc: Global, text: &str) -> Result<String, AllocError> {
    let mut escaped = String::new(alloc);
    let mut before = None;
    for c in text.chars() {
        if before == Some(c) && may_join(c) {
            escaped.push_str("{}")?;
        }
        push_letter(&mut escaped, c)?;
        before = Some(c);
    }
    Ok(escaped)
}

/// Whether two of a letter are a ligature: a dash or a quotation mark.
pub(crate) fn may_join(c: char) -> bool {
    matches!(c, '-' | '\'' | ',')
}

fn push_letter(out: &mut String, c: char) -> Result<(), AllocError> {
    match escape_of_sign(c).or(escape_of_space(c)) {
        Some(escape) => out.push_str(escape),
        None => out.push(c),
    }
}

/// What stands for a sign that LaTeX reads as its own.
fn escape_of_sign(c: char) -> Option<&'static str> {
    let escape = match c {
        '\\' => "\\textbackslash{}",
        '{' => "\\{",
        '}' => "\\}",
        '$' => "\\$",
        '&' => "\\&",
        '#' => "\\#",
        '%' => "\\%",
        '_' => "\\_",
        '^' => "\\textasciicircum{}",
        '~' => "\\textasciitilde{}",
        '<' => "\\textless{}",
        '>' => "\\textgreater{}",
        '|' => "\\textbar{}",
        '"' => "\"{}",
        '`' => "\\textasciigrave{}",
        '[' => "{[}",
        ']' => "{]}",
        _ => return None,
    };
    Some(escape)
}

/// What stands for a letter that LaTeX has no glyph for, unless its engine is one of Unicode.
fn escape_of_space(c: char) -> Option<&'static str> {
    let escape = match c {
        '\u{a0}' => "~",
        '\u{2002}' => "\\enspace{}",
        '\u{2003}' => "\\quad{}",
        '\u{2009}' | '\u{200a}' | '\u{202f}' => "\\,",
        '\u{200b}' => "\\hspace{0pt}",
        '\u{2032}' => "\\ensuremath{\\prime}",
        '\u{2033}' => "\\ensuremath{\\prime\\prime}",
        '\u{2212}' => "\\ensuremath{-}",
        '\u{2060}' | '\u{feff}' => "",
        _ => return None,
    };
    Some(escape)
}

/// Adds an address, as an argument of a command has it.
///
/// # Errors
///
/// Where memory is refused.
pub(crate) fn push_address(out: &mut String, address: &str) -> Result<(), AllocError> {
    for c in address.chars() {
        match c {
            '%' => out.push_str("\\%")?,
            '#' => out.push_str("\\#")?,
            '&' => out.push_str("\\&")?,
            '~' => out.push_str("\\%7E")?,
            _ => out.push(c)?,
        }
    }
    Ok(())
}

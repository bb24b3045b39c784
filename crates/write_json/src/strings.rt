//! Strings as JSON.
ghost use Rattle.std.specs.Prelude.{
  ◌≡◌,
  ◌∷◌,
  ◌++◌,
  ◌<◌,
  ◌/◌,
  ◌%◌,
  [],
  codes,
  OnOk,
  IfSome,
  IsSome,
  ◌↔◌,
  string_bytes,
};
ghost use Rattle.std.specs.Bool.{OnTrue};
ghost use Rattle.std.specs.Char.{encode_utf8, digit_char};
ghost use Rattle.json.specs.Print.{escape_letter, escape_byte, escape, quoted};

use std::alloc::AllocError;

/// Whether a byte stands for itself in a JSON string.
fn is_plain_byte(byte: u8) -> bool
    ensures { OnTrue result (escape_byte byte ≡ byte ∷ []) }
{
    byte >= 0x20 && byte != b'"' && byte != b'\\'
}

/// Whether the text stands for itself in a JSON string.
fn is_plain(text: &str) -> bool
    ensures { OnTrue result (escape text.now ≡ text.now) }
{
    for &byte in text.as_bytes() {
        if !is_plain_byte(byte) {
            return false;
        }
    }
    true
}

/// Appends a control character that has no letter of its own.
fn write_control(out: &mut String, code: u32) -> Result<(), AllocError>
    requires { code < 32 }
    ensures { OnOk result (string_bytes out.new
        ≡ string_bytes out.old
        ++ (codes "\\u00" ++ (digit_char (code / 16) ∷ digit_char (code % 16) ∷ []))) }
{
    out.push_str(if code < 16 { "\\u000" } else { "\\u001" })?;
    match char::from_digit(code % 16, 16) {
        Some(digit) => out.push(digit),
        None => Ok(()),
    }
}

/// The short escape of a character, if it has one.
fn short_escape(c: char) -> Option<&'static str>
    ensures escape { IfSome result (λ escape. escape.now ≡ codes "\\" ++ (escape_letter c ∷ [])) }
    ensures has_letter { IsSome result ↔ (0 < escape_letter c) }
{
    match c {
        '"' => Some("\\\""),
        '\\' => Some("\\\\"),
        '\u{8}' => Some("\\b"),
        '\u{c}' => Some("\\f"),
        '\n' => Some("\\n"),
        '\r' => Some("\\r"),
        '\t' => Some("\\t"),
        _ => None,
    }
}

/// Appends a character as it stands in a JSON string.
fn write_char(out: &mut String, c: char) -> Result<(), AllocError>
    ensures { OnOk result (string_bytes out.new ≡ string_bytes out.old ++ escape (encode_utf8 c)) }
{
    if let Some(escape) = short_escape(c) {
        return out.push_str(escape);
    }
    if c < ' ' {
        return write_control(out, c as u32);
    }
    out.push(c)
}

/// Appends a text as it stands in a JSON string, a character at a time.
fn write_escaped(out: &mut String, text: &str) -> Result<(), AllocError>
    ensures { OnOk result (string_bytes out.new ≡ string_bytes out.old ++ escape text.now) }
{
    for c in text.chars() {
        write_char(out, c)?;
    }
    Ok(())
}

/// Appends a text as a JSON string.
pub(crate) fn write_string(out: &mut String, text: &str) -> Result<(), AllocError>
    ensures { OnOk result (string_bytes out.new ≡ string_bytes out.old ++ quoted text.now) }
{
    out.push('"')?;
    if is_plain(text) {
        out.push_str(text)?;
    } else {
        write_escaped(out, text)?;
    }
    out.push('"')
}

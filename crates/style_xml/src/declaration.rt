//! The XML declaration.
ghost use Rattle.std.specs.Prelude.{◌≤◌, length, IfOk, IfSome};

use crate::characters::{is_name_char, is_space};
use crate::error::Wanted;
use crate::scan::{expect, skip_space};
use crate::stop::Stop;

/// The value of this field, where the text goes on with white space and it, and the rest.
fn field<'a>(name: &str, text: &'a str) -> Option<(&'a str, &'a str)>
    ensures { IfSome result (λ p. length p.1.now ≤ length text.now) }
{
    if !text.starts_with(is_space) {
        return None;
    }
    let behind_name = skip_space(text).strip_prefix(name)?;
    let rest = skip_space(skip_space(behind_name).strip_prefix('=')?);
    let quote = if rest.starts_with('\'') { '\'' } else { '"' };
    rest.strip_prefix(quote)?.split_once(quote)
}

/// Whether a version is one of XML 1 (XML 1.0, production 26).
fn is_version(version: &str) -> bool {
    match version.strip_prefix("1.") {
        Some(minor) => !minor.is_empty() && minor.chars().all(|c| c.is_ascii_digit()),
        None => false,
    }
}

/// Behind the XML declaration, where the text begins with one (productions 23 to 26, 32 and 80).
pub(crate) fn skip_declaration(text: &str) -> Result<&str, Stop>
    ensures { IfOk result (λ rest. length rest.now ≤ length text.now) }
{
    let Some(rest) = text.strip_prefix("<?xml") else {
        return Ok(text);
    };
    if rest.starts_with(is_name_char) {
        return Ok(text);
    }
    let wanted_version = Stop::at(Wanted::Version, skip_space(rest));
    let rest = match field("version", rest) {
        Some((version, behind)) if is_version(version) => behind,
        _ => return Err(wanted_version),
    };
    let rest = match field("encoding", rest) {
        Some((encoding, behind)) if encoding.eq_ignore_ascii_case("utf-8") => behind,
        Some(_) => return Err(Stop::at(Wanted::Utf8Encoding, skip_space(rest))),
        None => rest,
    };
    let rest = match field("standalone", rest) {
        Some(("yes" | "no", behind)) => behind,
        _ => rest,
    };
    expect("?>", skip_space(rest), Wanted::DeclarationEnd)
}

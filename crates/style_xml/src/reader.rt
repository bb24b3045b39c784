//! Reading a document.
ghost use Rattle.std.specs.Prelude.{◌≡◌, ◌<◌, ◌≤◌, length, IfOk, IfErr};
ghost use Rattle.style_xml.specs.Places.{IsErrorIn};
ghost use Rattle.style_xml.specs.Trees.{IsWithinLimits};

use crate::declaration::skip_declaration;
use crate::error::{Fault, Wanted, XmlError, place_in};
use crate::nest::Nest;
use crate::scan::{skip_remark, skip_remarks, split_at_mark};
use crate::source::Source;
use crate::stop::Stop;
use crate::tags::{skip_end_tag, start_tag};
use crate::tree::Element;
use std::alloc::Global;

/// Reads a document.
///
/// # Errors
///
/// `Malformed` where the text is no document that is read, with the first place where that shows.
/// `OutOfMemory` where memory is refused.
pub fn read(alloc: Global, text: &str) -> Result<Element, XmlError>
    ensures tree { IfOk result (IsWithinLimits (length text.now)) }
    ensures error { IfErr result (IsErrorIn text.now) }
{
    document(alloc, text).map_err(|stop| stop.in_text(alloc, text))
}

/// Reads a document from its bytes.
///
/// # Errors
///
/// Those of `read`, and `Malformed` with `Wanted::Utf8` at the first byte that is no part of UTF-8.
pub fn read_bytes(alloc: Global, bytes: &[u8]) -> Result<Element, XmlError>
    ensures tree { IfOk result (IsWithinLimits (length bytes.now)) }
    ensures error { IfErr result (IsErrorIn bytes.now) }
{
    match str::from_utf8(bytes) {
        Ok(text) => read(alloc, text),
        Err(error) => Err(refused_byte(alloc, bytes, error.valid_up_to())),
    }
}

/// The error of bytes that are UTF-8 only up to an offset.
fn refused_byte(alloc: Global, bytes: &[u8], offset: usize) -> XmlError
    requires { offset < length bytes.now }
    ensures { IsErrorIn bytes.now result }
{
    let Ok(found) = format!(in alloc; "\\x{:02x}", bytes[offset]) else {
        return XmlError::OutOfMemory;
    };
    let fault = Fault {
        wanted: Wanted::Utf8,
        found,
    };
    XmlError::Malformed(fault, place_in(bytes, offset))
}

/// The element of the document that the text is.
fn document(alloc: Global, text: &str) -> Result<Element, Stop>
    ensures { IfOk result (IsWithinLimits (length text.now)) }
{
    let source = Source {
        alloc,
        length: text.len(),
    };
    let rest = text.strip_prefix('\u{feff}').unwrap_or(text);
    let rest = skip_remarks(skip_declaration(rest)?)?;
    if rest.starts_with("<![") {
        return Err(Stop::at(Wanted::Root, rest));
    }
    if rest.starts_with("<!") {
        return Err(Stop::at(Wanted::NoDeclaration, rest));
    }
    let (root, rest) = root(source, rest)?;
    let rest = skip_remarks(rest)?;
    if rest.is_empty() {
        Ok(root)
    } else {
        Err(Stop::at(Wanted::End, rest))
    }
}

/// The element with which the text begins, and the rest.
fn root<'a>(source: Source, text: &'a str) -> Result<(Element, &'a str), Stop>
    requires { length text.now ≤ source.length }
    ensures { IfOk result (λ p. IsWithinLimits source.length p.0) }
{
    let (root, is_empty, behind) = start_tag(source, text)?;
    let mut nest = Nest::new(source, root)?;
    let mut is_end = is_empty;
    let mut rest = behind;
    'markup: loop {
        if is_end && !nest.leave()? {
            return Ok((nest.into_root(), rest));
        }
        let markup = nest.read_text(rest)?;
        if markup.is_empty() {
            return Err(Stop::at(nest.wanted_end()?, markup));
        }
        (is_end, rest) = read_markup(&mut nest, markup)?;
    }
}

/// Reads the markup with which the text begins. Returns whether it ends the innermost element, and
/// the rest.
fn read_markup<'a>(nest: &mut Nest, text: &'a str) -> Result<(bool, &'a str), Stop>
    requires { length text.now ≤ nest.old.source.length }
    ensures source { nest.new.source ≡ nest.old.source }
    ensures shorter { IfOk result (λ p. length p.1.now < length text.now) }
{
    if text.starts_with("</") {
        return match skip_end_tag(nest.name(), text) {
            Some(behind) => Ok((true, behind)),
            None => Err(Stop::at(nest.wanted_end()?, text)),
        };
    }
    if let Some(skipped) = skip_remark(text) {
        return Ok((false, skipped?));
    }
    if let Some(inside) = text.strip_prefix("<![CDATA[") {
        let (section, behind) = split_at_mark(inside, "]]>", text, Wanted::ClosedSection)?;
        nest.read_section(section)?;
        return Ok((false, behind));
    }
    if text.starts_with("<!") {
        return Err(Stop::at(Wanted::NoDeclaration, text));
    }
    let (element, is_empty, behind) = start_tag(nest.source, text)?;
    nest.enter(element)?;
    Ok((is_empty, behind))
}

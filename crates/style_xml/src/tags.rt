//! Start tags and end tags.
ghost use Rattle.std.specs.Prelude.{◌≡◌, ◌+◌, ◌<◌, ◌≤◌, length, map, suc, vec_len, IfOk, IfSome};
ghost use Rattle.style_xml.specs.Trees.{IsStart, most};

use crate::error::Wanted;
use crate::limits::MAX_ATTRIBUTES;
use crate::scan::{expect, name, skip_space};
use crate::source::Source;
use crate::stop::Stop;
use crate::text::value;
use crate::tree::{Attribute, Element};

/// The attribute with which the text begins, and the rest.
fn attribute<'a>(source: Source, text: &'a str) -> Result<(Attribute, &'a str), Stop>
    requires { length text.now ≤ source.length }
    ensures shorter { IfOk result (λ p. length p.1.now < length text.now) }
    ensures place { IfOk result (λ p. p.0.offset + length text.now ≡ source.length) }
{
    let offset = source.offset_of(text);
    let (name, rest) = name(text)?;
    let rest = expect("=", skip_space(rest), Wanted::Equals)?;
    let (value, rest) = value(source.alloc, skip_space(rest))?;
    let attribute = Attribute {
        name: String::from_str(source.alloc, name)?,
        value,
        offset,
    };
    Ok((attribute, rest))
}

/// The attributes of a tag, and the rest, which begins with the end of the tag.
fn attributes<'a>(source: Source, text: &'a str) -> Result<(Vec<Attribute>, &'a str), Stop>
    requires { length text.now ≤ source.length }
    ensures shorter { IfOk result (λ p. length p.1.now ≤ length text.now) }
    ensures limit { IfOk result (λ p. vec_len p.0 ≤ MAX_ATTRIBUTES) }
    ensures offsets { IfOk result (λ p. most (map (λ a. suc a.offset) p.0.items) ≤ source.length) }
{
    let mut attributes: Vec<Attribute> = Vec::new(source.alloc);
    let mut rest = text;
    'attributes: loop {
        let next = skip_space(rest);
        if next.starts_with('>') || next.starts_with("/>") {
            return Ok((attributes, next));
        }
        if next.len() == rest.len() {
            return Err(Stop::at(Wanted::TagEnd, next));
        }
        let (found, behind) = attribute(source, next)?;
        if attributes.iter().any(|before| before.name == found.name) {
            return Err(Stop::at(Wanted::OtherAttribute, next));
        }
        if attributes.len() >= MAX_ATTRIBUTES {
            return Err(Stop::at(Wanted::FewerAttributes, next));
        }
        attributes.push(found)?;
        rest = behind;
    }
}

/// The element with whose tag the text begins, without its content; whether it has none; and the
/// rest behind the tag.
pub(crate) fn start_tag<'a>(source: Source, text: &'a str) -> Result<(Element, bool, &'a str), Stop>
    requires { length text.now ≤ source.length }
    ensures shorter { IfOk result (λ p. length p.2.now < length text.now) }
    ensures place { IfOk result (λ p. p.0.offset + length text.now ≡ source.length) }
    ensures start { IfOk result (λ p. IsStart source.length p.0) }
{
    let (name, rest) = name(expect("<", text, Wanted::Root)?)?;
    let (attributes, rest) = attributes(source, rest)?;
    let element = Element {
        name: String::from_str(source.alloc, name)?,
        attributes,
        content: Vec::new(source.alloc),
        offset: source.offset_of(text),
    };
    match rest.strip_prefix("/>") {
        Some(behind) => Ok((element, true, behind)),
        None => Ok((element, false, expect(">", rest, Wanted::TagEnd)?)),
    }
}

/// Behind the end tag of an element of this name, where the text begins with it.
pub(crate) fn skip_end_tag<'a>(name: &str, text: &'a str) -> Option<&'a str>
    ensures { IfSome result (λ rest. length rest.now < length text.now) }
{
    skip_space(text.strip_prefix("</")?.strip_prefix(name)?).strip_prefix('>')
}

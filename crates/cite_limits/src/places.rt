//! Where in a style file a part of a style is.
use crate::error::StylePlace;
use std::alloc::{AllocError, Global};
use style_file::style::CslStyle;
use style_xml::error::{Place, XmlError, place_at};
use style_xml::reader::read;
use style_xml::tree::Element;

/// Where a part of a style is in the text of its file: the start of its element.
///
/// # Errors
///
/// Where memory is refused.
pub fn place_in(
    alloc: Global,
    text: &str,
    style: &CslStyle,
    place: StylePlace,
) -> Result<Option<Place>, AllocError> {
    match read(alloc, text) {
        Ok(root) => Ok(offset_in(&root, style, place).map(|offset| place_at(text, offset))),
        Err(XmlError::OutOfMemory) => Err(AllocError),
        Err(XmlError::Malformed(_, _)) => Ok(None),
    }
}

/// Where the element of a part of a style begins, if it is there.
fn offset_in(root: &Element, style: &CslStyle, place: StylePlace) -> Option<usize> {
    match place {
        StylePlace::Macro(index) => {
            let called = style.macros.get(index)?;
            offset_of_macro(root, called.name.as_str())
        }
        StylePlace::Citation => offset_of(root, "citation", 0),
        StylePlace::Bibliography => offset_of(root, "bibliography", 0),
        StylePlace::Locale(index) => offset_of(root, "locale", index),
    }
}

fn offset_of_macro(root: &Element, name: &str) -> Option<usize> {
    for child in root.children() {
        if local_name(child) == "macro" && child.attribute("name") == Some(name) {
            return Some(child.offset);
        }
    }
    None
}

/// Where the child at this place among those of its name begins.
fn offset_of(root: &Element, name: &str, place: usize) -> Option<usize> {
    let mut before = 0usize;
    for child in root.children() {
        if local_name(child) != name {
            continue;
        }
        if before == place {
            return Some(child.offset);
        }
        before = before.saturating_add(1);
    }
    None
}

/// The name of an element without its prefix.
fn local_name(element: &Element) -> &str {
    let name = element.name.as_str();
    match name.rsplit_once(':') {
        Some((_, local)) => local,
        None => name,
    }
}

//! The elements in an element.
use crate::fault::Wanted;
use crate::stop::Stop;
use std::alloc::Global;
use style_xml::tree::{Element, text_of};

/// CSL's namespace.
pub const NAMESPACE: &str = "http://purl.org/net/xbiblio/csl";

/// The prefix that the specification of CSL writes before the names of its elements.
const PREFIX: &str = "cs:";

/// The name of an element without the prefix of CSL.
pub fn local_name(element: &Element) -> &str {
    let name = element.name.as_str();
    name.strip_prefix(PREFIX).unwrap_or(name)
}

/// The name of an element of CSL. That of an element of another namespace, which has another prefix
/// or, without a prefix, a default namespace of its own, is empty.
pub fn csl_name(element: &Element) -> &str {
    let name = local_name(element);
    let is_prefixed = name.len() < element.name.len();
    let is_foreign = name.contains(':') || !is_prefixed && has_other_namespace(element);
    if is_foreign { "" } else { name }
}

/// Whether an element has a default namespace of its own that isn't CSL's.
fn has_other_namespace(element: &Element) -> bool {
    element
        .attribute("xmlns")
        .is_some_and(|namespace| namespace != NAMESPACE)
}

/// The only element of this name in its parent, if any.
pub fn only_child<'e>(
    alloc: Global,
    parent: &'e Element,
    name: &str,
) -> Result<Option<&'e Element>, Stop> {
    let mut only = None;
    for child in parent.children() {
        if csl_name(child) == name {
            if only.is_some() {
                return Err(Stop::at(alloc, child.offset, name, Wanted::OneElement));
            }
            only = Some(child);
        }
    }
    Ok(only)
}

/// The only element of this name in its parent, which has to be there.
pub fn needed_child<'e>(
    alloc: Global,
    parent: &'e Element,
    name: &'static str,
) -> Result<&'e Element, Stop> {
    match only_child(alloc, parent, name)? {
        Some(child) => Ok(child),
        None => Err(missing(alloc, parent, name)),
    }
}

/// An element of this name is missing.
pub fn missing(alloc: Global, parent: &Element, name: &'static str) -> Stop {
    Stop::at(
        alloc,
        parent.offset,
        parent.name.as_str(),
        Wanted::Element(name),
    )
}

/// The text of the only element of this name in its parent, without white space around it.
pub fn child_text(alloc: Global, parent: &Element, name: &str) -> Result<Option<String>, Stop> {
    match only_child(alloc, parent, name)? {
        Some(child) => {
            let text = text_of(alloc, &child.content)?;
            Ok(Some(String::from_str(alloc, text.as_str().trim())?))
        }
        None => Ok(None),
    }
}

/// The text of the only element of this name in its parent, which has to be there.
pub fn needed_text(alloc: Global, parent: &Element, name: &'static str) -> Result<String, Stop> {
    match child_text(alloc, parent, name)? {
        Some(text) => Ok(text),
        None => Err(missing(alloc, parent, name)),
    }
}

//! Attributes as values.
use crate::fault::Wanted;
use crate::nearest::Nearest;
use crate::stop::Stop;
use std::alloc::{AllocError, Global};
use style_xml::tree::{Attribute, Element};

/// The attribute of this name.
pub fn attribute<'e>(element: &'e Element, name: &str) -> Option<&'e Attribute> {
    element
        .attributes
        .iter()
        .find(|attribute| attribute.name.as_str() == name)
}

/// The attribute of this name, which has to be there.
pub fn needed<'e>(
    alloc: Global,
    element: &'e Element,
    name: &'static str,
) -> Result<&'e Attribute, Stop> {
    match attribute(element, name) {
        Some(attribute) => Ok(attribute),
        None => Err(Stop::at(
            alloc,
            element.offset,
            element.name.as_str(),
            Wanted::Attribute(name),
        )),
    }
}

/// The only attribute of these names. There has to be one.
pub fn only<'e>(
    alloc: Global,
    element: &'e Element,
    names: &'static [&'static str],
) -> Result<&'e Attribute, Stop> {
    let mut found = element
        .attributes
        .iter()
        .filter(|attribute| names.contains(&attribute.name.as_str()));
    match (found.next(), found.next()) {
        (Some(attribute), None) => Ok(attribute),
        _ => Err(Stop::at(
            alloc,
            element.offset,
            element.name.as_str(),
            Wanted::OneOf(names),
        )),
    }
}

/// The text of an attribute.
pub fn text(alloc: Global, element: &Element, name: &str) -> Result<Option<String>, AllocError> {
    match attribute(element, name) {
        Some(attribute) => Ok(Some(attribute.value.clone()?)),
        None => Ok(None),
    }
}

/// The text of an attribute, empty where it is absent.
pub fn text_or_empty(alloc: Global, element: &Element, name: &str) -> Result<String, AllocError> {
    match attribute(element, name) {
        Some(attribute) => attribute.value.clone(),
        None => Ok(String::new(alloc)),
    }
}

/// The value that an attribute names, by the rows of its values.
pub fn named<T: Copy>(
    alloc: Global,
    element: &Element,
    name: &'static str,
    rows: &[(&'static str, T)],
) -> Result<Option<T>, Stop> {
    match attribute(element, name) {
        Some(found) => Ok(Some(value_of(alloc, name, found, rows)?)),
        None => Ok(None),
    }
}

/// The value that an attribute names, which has to be there, by the rows of its values.
pub fn needed_value<T: Copy>(
    alloc: Global,
    element: &Element,
    name: &'static str,
    rows: &[(&'static str, T)],
) -> Result<T, Stop> {
    value_of(alloc, name, needed(alloc, element, name)?, rows)
}

/// The value that an attribute names, by the rows of its values.
fn value_of<T: Copy>(
    alloc: Global,
    name: &'static str,
    attribute: &Attribute,
    rows: &[(&'static str, T)],
) -> Result<T, Stop> {
    word_value(
        alloc,
        name,
        attribute.offset,
        attribute.value.as_str(),
        rows,
    )
}

/// The value that a word of an attribute names, by the rows of its values.
pub fn word_value<T: Copy>(
    alloc: Global,
    name: &'static str,
    offset: usize,
    word: &str,
    rows: &[(&'static str, T)],
) -> Result<T, Stop> {
    if let Some(value) = row_value(rows, word) {
        return Ok(value);
    }
    let wanted = Wanted::Value {
        attribute: name,
        nearest: nearest_row(alloc, word, rows)?,
    };
    Err(Stop::at(alloc, offset, word, wanted))
}

/// The value of the row with this name.
pub fn row_value<T: Copy>(rows: &[(&'static str, T)], word: &str) -> Option<T> {
    for row in rows {
        if row.0 == word {
            return Some(row.1);
        }
    }
    None
}

/// The name of a row that is nearest to a word.
pub fn nearest_row<T>(
    alloc: Global,
    word: &str,
    rows: &[(&'static str, T)],
) -> Result<Option<&'static str>, AllocError> {
    let mut nearest = Nearest::new(alloc, word);
    for row in rows {
        nearest.consider(row.0)?;
    }
    Ok(nearest.word())
}

const TRUTHS: &[(&str, bool)] = &[("true", true), ("false", false)];

/// Whether an attribute is `true`.
pub fn truth(alloc: Global, element: &Element, name: &'static str) -> Result<Option<bool>, Stop> {
    named(alloc, element, name, TRUTHS)
}

/// Whether an attribute is `true`; not where it is absent.
pub fn is_true(alloc: Global, element: &Element, name: &'static str) -> Result<bool, Stop> {
    Ok(truth(alloc, element, name)?.unwrap_or(false))
}

/// The number that an attribute is, of at least this. White space around it is left out.
pub fn number(
    alloc: Global,
    element: &Element,
    name: &str,
    least: u32,
) -> Result<Option<u32>, Stop> {
    let Some(attribute) = attribute(element, name) else {
        return Ok(None);
    };
    let text = attribute.value.as_str();
    match text.trim().parse::<u32>() {
        Ok(number) if number >= least => Ok(Some(number)),
        _ => Err(Stop::at(
            alloc,
            attribute.offset,
            text,
            wanted_number(text.trim(), least),
        )),
    }
}

/// What is wanted in place of a text that is no number, of at least this.
fn wanted_number(text: &str, least: u32) -> Wanted {
    let is_number = !text.is_empty() && text.bytes().all(|byte| byte.is_ascii_digit());
    if is_number && text.parse::<u32>().is_err() {
        return Wanted::SmallerNumber { most: u32::MAX };
    }
    Wanted::Number { least }
}

/// The language tag that an attribute is.
pub fn language_tag(alloc: Global, element: &Element, name: &str) -> Result<Option<String>, Stop> {
    let Some(attribute) = attribute(element, name) else {
        return Ok(None);
    };
    let tag = attribute.value.as_str();
    if !tag.chars().all(is_of_tag) {
        return Err(Stop::at(alloc, attribute.offset, tag, Wanted::LanguageTag));
    }
    Ok(Some(attribute.value.clone()?))
}

/// Whether a language tag may have a character; some have an underscore for a hyphen.
fn is_of_tag(c: char) -> bool {
    c.is_ascii_alphanumeric() || matches!(c, '-' | '_')
}

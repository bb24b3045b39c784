//! What a style says of itself.
use std::alloc::Global;
use style_elements::attributes::{attribute, named, needed, row_value, text};
use style_elements::children::{child_text, csl_name, needed_child, needed_text};
use style_elements::reading::Reading;
use style_elements::stop::Stop;
use style_elements::tables::{CITATION_FORMATS, FIELDS, LINK_RELATIONS};
use style_elements::warning::{Oddity, WordKind};
use style_elements::words::unknown;
use style_file::info::{Category, Info, Link, LinkRelation};
use style_xml::tree::{Attribute, Element};

/// The elements of an `info`. Of those that no value holds nothing is read.
const PARTS: &[&str] = &[
    "author",
    "category",
    "contributor",
    "eissn",
    "id",
    "issn",
    "issnl",
    "link",
    "published",
    "rights",
    "summary",
    "title",
    "title-short",
    "translator",
    "updated",
];

/// The `info` in a style.
pub(crate) fn info_of(style: &Element, reading: &mut Reading<'_>) -> Result<Info, Stop> {
    let info = needed_child(reading.alloc, style, "info")?;
    note_parts(info, reading)?;
    let (links, categories) = relations_of(info, reading)?;
    info_with(reading.alloc, info, links, categories)
}

/// An `info` with these links and categories.
fn info_with(
    alloc: Global,
    info: &Element,
    links: Vec<Link>,
    categories: Vec<Category>,
) -> Result<Info, Stop> {
    let (title, id) = identity_of(alloc, info)?;
    let (title_short, summary, updated) = remarks_of(alloc, info)?;
    Ok(Info {
        title,
        title_short,
        id,
        links,
        categories,
        summary,
        updated,
    })
}

/// The title and the identifier.
fn identity_of(alloc: Global, info: &Element) -> Result<(String, String), Stop> {
    let title = needed_text(alloc, info, "title")?;
    let id = needed_text(alloc, info, "id")?;
    Ok((title, id))
}

/// The short title, the summary, and when the style was changed.
fn remarks_of(
    alloc: Global,
    info: &Element,
) -> Result<(Option<String>, Option<String>, Option<String>), Stop> {
    let title_short = child_text(alloc, info, "title-short")?;
    let summary = child_text(alloc, info, "summary")?;
    let updated = child_text(alloc, info, "updated")?;
    Ok((title_short, summary, updated))
}

/// Notes the elements of an `info` that CSL 1.0.2 lacks.
fn note_parts(info: &Element, reading: &mut Reading<'_>) -> Result<(), Stop> {
    for child in info.children() {
        if !PARTS.contains(&csl_name(child)) {
            reading.note(child.offset, child.name.as_str(), Oddity::Element)?;
        }
    }
    Ok(())
}

fn relations_of(
    info: &Element,
    reading: &mut Reading<'_>,
) -> Result<(Vec<Link>, Vec<Category>), Stop> {
    let links = links_of(info, reading)?;
    let categories = categories_of(info, reading)?;
    Ok((links, categories))
}

fn links_of(info: &Element, reading: &mut Reading<'_>) -> Result<Vec<Link>, Stop> {
    let mut links = Vec::new(reading.alloc);
    for child in info.children() {
        if csl_name(child) == "link" {
            if let Some(link) = link_of(child, reading)? {
                links.push(link)?;
            }
        }
    }
    Ok(links)
}

/// The link that an element `link` is; none where its relation is unknown.
fn link_of(element: &Element, reading: &mut Reading<'_>) -> Result<Option<Link>, Stop> {
    let href = needed(reading.alloc, element, "href")?;
    let rel = needed(reading.alloc, element, "rel")?;
    match relation_of(rel, reading)? {
        Some(relation) => Ok(Some(Link {
            href: href.value.clone()?,
            relation,
            language: text(reading.alloc, element, "xml:lang")?,
        })),
        None => Ok(None),
    }
}

/// The relation of a link. One that CSL 1.0.2 lacks is noted.
fn relation_of(rel: &Attribute, reading: &mut Reading<'_>) -> Result<Option<LinkRelation>, Stop> {
    let word = rel.value.as_str();
    let relation = row_value(LINK_RELATIONS, word);
    if relation.is_none() {
        let nearest = reading.nearest_row(word, LINK_RELATIONS)?;
        unknown(reading, rel.offset, word, WordKind::LinkRelation, nearest)?;
    }
    Ok(relation)
}

fn categories_of(info: &Element, reading: &mut Reading<'_>) -> Result<Vec<Category>, Stop> {
    let mut categories = Vec::new(reading.alloc);
    for child in info.children() {
        if csl_name(child) == "category" {
            if let Some(category) = category_of(child, reading)? {
                categories.push(category)?;
            }
        }
    }
    Ok(categories)
}

/// The category that an element `category` is; none where its field is unknown or it says nothing.
fn category_of(element: &Element, reading: &mut Reading<'_>) -> Result<Option<Category>, Stop> {
    if let Some(format) = named(reading.alloc, element, "citation-format", CITATION_FORMATS)? {
        return Ok(Some(Category::CitationFormat(format)));
    }
    match attribute(element, "field") {
        Some(attribute) => field_of(attribute, reading),
        None => Ok(None),
    }
}

/// The field of science that an attribute names. One that CSL 1.0.2 lacks is noted.
fn field_of(attribute: &Attribute, reading: &mut Reading<'_>) -> Result<Option<Category>, Stop> {
    let word = attribute.value.as_str();
    let field = row_value(FIELDS, word);
    if field.is_none() {
        let nearest = reading.nearest_row(word, FIELDS)?;
        unknown(reading, attribute.offset, word, WordKind::Field, nearest)?;
    }
    Ok(field.map(Category::Field))
}

//! What a style says.
use crate::element::elements_of;
use crate::info::info_of;
use crate::locale::style_locales;
use crate::names::inherited_options;
use crate::sections::{bibliography_of, citation_of};
use std::alloc::Global;
use style_elements::attributes::{attribute, language_tag, named, needed, needed_value, truth};
use style_elements::children::{csl_name, needed_child, only_child};
use style_elements::fault::Wanted;
use style_elements::reading::Reading;
use style_elements::shape::{MACRO, STYLE, check};
use style_elements::stop::Stop;
use style_elements::tables::{CLASSES, PAGE_RANGE_FORMATS, PARTICLE_DEMOTIONS};
use style_elements::warning::Oddity;
use style_file::locale::StyleLocale;
use style_file::names::InheritedNameOptions;
use style_file::sections::{Bibliography, Citation};
use style_file::style::{
    CslStyle, DependentStyle, GlobalOptions, Macro, ParticleDemotion, StyleClass, StyleFile,
};
use style_xml::tree::{Attribute, Element};

/// What a style says. One that has nothing but its `info` stands for another.
pub(crate) fn style_of(root: &Element, reading: &mut Reading<'_>) -> Result<StyleFile, Stop> {
    check(root, &STYLE, reading)?;
    let parent = parent_of(root);
    if is_independent(root) {
        note_parent(parent, reading)?;
        return Ok(StyleFile::Independent(independent_of(root, reading)?));
    }
    match parent {
        Some(parent) => Ok(StyleFile::Dependent(dependent_of(root, parent, reading)?)),
        None => Err(reading.stop(root.offset, root.name.as_str(), Wanted::Parent)),
    }
}

/// Whether a style has more than its `info`.
fn is_independent(root: &Element) -> bool {
    for child in root.children() {
        if matches!(
            csl_name(child),
            "locale" | "macro" | "citation" | "bibliography"
        ) {
            return true;
        }
    }
    false
}

/// The identifier of the style for which a style stands, by the first link to it.
fn parent_of(root: &Element) -> Option<&Attribute> {
    for child in root.children() {
        if csl_name(child) == "info" {
            return attribute(parent_link(child)?, "href");
        }
    }
    None
}

/// The first link of an `info` to the parent of its style.
fn parent_link(info: &Element) -> Option<&Element> {
    for child in info.children() {
        if csl_name(child) == "link" && child.attribute("rel") == Some("independent-parent") {
            return Some(child);
        }
    }
    None
}

/// Notes that the parent of a style that stands for itself is not used.
fn note_parent(parent: Option<&Attribute>, reading: &mut Reading<'_>) -> Result<(), Stop> {
    match parent {
        Some(parent) => {
            let found = parent.value.as_str();
            reading.note(parent.offset, found, Oddity::UnusedParent)
        }
        None => Ok(()),
    }
}

/// What a style that stands for this parent says.
fn dependent_of(
    root: &Element,
    parent: &Attribute,
    reading: &mut Reading<'_>,
) -> Result<DependentStyle, Stop> {
    let parent = parent.value.clone()?;
    let info = info_of(root, reading)?;
    let default_locale = language_tag(reading.alloc, root, "default-locale")?;
    Ok(DependentStyle {
        info,
        default_locale,
        parent,
    })
}

/// What a style that stands for itself says.
fn independent_of(root: &Element, reading: &mut Reading<'_>) -> Result<CslStyle, Stop> {
    let attributes = attributes_of(reading.alloc, root);
    let info = info_of(root, reading);
    let head = reading.both(attributes, info);
    let parts = parts_of(root, reading);
    let ((attributes, info), parts) = reading.both(head, parts)?;
    let StyleAttributes {
        class,
        default_locale,
        options,
        names,
    } = attributes;
    let StyleParts {
        locales,
        macros,
        citation,
        bibliography,
    } = parts;
    Ok(CslStyle {
        info,
        class,
        default_locale,
        options,
        names,
        locales,
        macros,
        citation,
        bibliography,
    })
}

/// The attributes of a style.
#[derive(Drop)]
struct StyleAttributes {
    class: StyleClass,
    default_locale: Option<String>,
    options: GlobalOptions,
    names: InheritedNameOptions,
}

fn attributes_of(alloc: Global, root: &Element) -> Result<StyleAttributes, Stop> {
    Ok(StyleAttributes {
        class: needed_value(alloc, root, "class", CLASSES)?,
        default_locale: language_tag(alloc, root, "default-locale")?,
        options: options_of(alloc, root)?,
        names: inherited_options(alloc, root)?,
    })
}

fn options_of(alloc: Global, root: &Element) -> Result<GlobalOptions, Stop> {
    let demotion = "demote-non-dropping-particle";
    let demotion = named(alloc, root, demotion, PARTICLE_DEMOTIONS)?;
    let hyphen = truth(alloc, root, "initialize-with-hyphen")?;
    Ok(GlobalOptions {
        particle_demotion: demotion.unwrap_or(ParticleDemotion::DisplayAndSort),
        initialize_with_hyphen: hyphen.unwrap_or(true),
        page_range_format: named(alloc, root, "page-range-format", PAGE_RANGE_FORMATS)?,
    })
}

/// The elements of a style, but for its `info`.
#[derive(Drop)]
struct StyleParts {
    locales: Vec<StyleLocale>,
    macros: Vec<Macro>,
    citation: Citation,
    bibliography: Option<Bibliography>,
}

fn parts_of(root: &Element, reading: &mut Reading<'_>) -> Result<StyleParts, Stop> {
    let locales = style_locales(root, reading)?;
    let macros = macros_of(root, reading)?;
    let citation = needed_citation(root, reading);
    let bibliography = optional_bibliography(root, reading);
    let (citation, bibliography) = reading.both(citation, bibliography)?;
    Ok(StyleParts {
        locales,
        macros,
        citation,
        bibliography,
    })
}

fn needed_citation(root: &Element, reading: &mut Reading<'_>) -> Result<Citation, Stop> {
    let citation = needed_child(reading.alloc, root, "citation")?;
    citation_of(citation, reading)
}

/// The macros of a style, each behind those that it calls.
fn macros_of(root: &Element, reading: &mut Reading<'_>) -> Result<Vec<Macro>, Stop> {
    let mut numbered = numbered_macros(root, reading)?;
    numbered.sort_by_key(|pair| pair.0)?;
    let mut macros = Vec::new(reading.alloc);
    for (_, each) in numbered {
        macros.push(each)?;
    }
    Ok(macros)
}

/// The macros of a style in the order of the file, each with its place behind those that it calls.
fn numbered_macros(root: &Element, reading: &mut Reading<'_>) -> Result<Vec<(usize, Macro)>, Stop> {
    let mut numbered = Vec::new(reading.alloc);
    for child in root.children() {
        if csl_name(child) == "macro" {
            let each = numbered_macro(child, reading);
            if let Some(each) = reading.go_on(each)? {
                numbered.push(each)?;
            }
        }
    }
    Ok(numbered)
}

fn numbered_macro(element: &Element, reading: &mut Reading<'_>) -> Result<(usize, Macro), Stop> {
    check(element, &MACRO, reading)?;
    let name = needed(reading.alloc, element, "name")?;
    let index = reading.macros.index_of(reading.alloc, name)?;
    let elements = elements_of(element, reading)?;
    let each = Macro {
        name: name.value.clone()?,
        elements,
        offset: element.offset,
    };
    Ok((index.0, each))
}

fn optional_bibliography(
    root: &Element,
    reading: &mut Reading<'_>,
) -> Result<Option<Bibliography>, Stop> {
    match only_child(reading.alloc, root, "bibliography")? {
        Some(element) => Ok(Some(bibliography_of(element, reading)?)),
        None => Ok(None),
    }
}

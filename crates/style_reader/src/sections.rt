//! The citation and the bibliography.
use crate::element::elements_of;
use crate::formatting::setting_of;
use crate::names::inherited_options;
use std::alloc::Global;
use style_elements::attributes::{is_true, named, number, only, text, text_or_empty, truth};
use style_elements::children::{csl_name, needed_child, only_child};
use style_elements::reading::Reading;
use style_elements::shape::{BIBLIOGRAPHY, CITATION, KEY, LAYOUT, SORT, check};
use style_elements::stop::Stop;
use style_elements::tables::{
    COLLAPSES, GIVEN_NAME_RULES, SECOND_FIELD_ALIGNS, SORT_DIRECTIONS, SUBSTITUTE_RULES,
};
use style_elements::words::variable;
use style_file::element::RenderingElement;
use style_file::names::InheritedNameOptions;
use style_file::sections::{
    Bibliography, BibliographyOptions, Citation, CitationOptions, GivenNameRule, Layout, SortBy,
    SortDirection, SortKey, SubstituteRule,
};
use style_xml::tree::{Attribute, Element};

/// The citation that an element `citation` is.
pub(crate) fn citation_of(element: &Element, reading: &mut Reading<'_>) -> Result<Citation, Stop> {
    check(element, &CITATION, reading)?;
    let options = citation_options(reading.alloc, element);
    let body = body_of(element, reading);
    let (options, body) = reading.both(options, body)?;
    let Body {
        names,
        sort,
        layout,
    } = body;
    Ok(Citation {
        options,
        names,
        sort,
        layout,
    })
}

/// The bibliography that an element `bibliography` is.
pub(crate) fn bibliography_of(
    element: &Element,
    reading: &mut Reading<'_>,
) -> Result<Bibliography, Stop> {
    check(element, &BIBLIOGRAPHY, reading)?;
    let options = bibliography_options(reading.alloc, element);
    let body = body_of(element, reading);
    let (options, body) = reading.both(options, body)?;
    let Body {
        names,
        sort,
        layout,
    } = body;
    Ok(Bibliography {
        options,
        names,
        sort,
        layout,
    })
}

/// What both sections have.
#[derive(Drop)]
struct Body {
    names: InheritedNameOptions,
    sort: Vec<SortKey>,
    layout: Layout,
}

fn body_of(section: &Element, reading: &mut Reading<'_>) -> Result<Body, Stop> {
    let names = inherited_options(reading.alloc, section);
    let sort = sort_of(section, reading);
    let head = reading.both(names, sort);
    let layout = layout_of(section, reading);
    let ((names, sort), layout) = reading.both(head, layout)?;
    Ok(Body {
        names,
        sort,
        layout,
    })
}

/// How many notes behind an earlier one a cite is near at most, where a style doesn't say it.
const NEAR_NOTE_DISTANCE: u32 = 5;

fn citation_options(alloc: Global, element: &Element) -> Result<CitationOptions, Stop> {
    let disambiguation = disambiguation_of(alloc, element)?;
    let collapse = named(alloc, element, "collapse", COLLAPSES)?;
    let near = number(alloc, element, "near-note-distance", 0)?;
    let (group, suffix, behind) = delimiters_of(alloc, element)?;
    Ok(CitationOptions {
        disambiguate_add_names: disambiguation.names,
        disambiguate_add_given_name: disambiguation.given_name,
        given_name_rule: disambiguation.rule.unwrap_or(GivenNameRule::ByCite),
        disambiguate_add_year_suffix: disambiguation.year_suffix,
        cite_group_delimiter: group,
        collapse,
        year_suffix_delimiter: suffix,
        after_collapse_delimiter: behind,
        near_note_distance: near.unwrap_or(NEAR_NOTE_DISTANCE),
    })
}

/// How cites that read alike are disambiguated.
#[derive(Clone, Copy)]
struct Disambiguation {
    names: bool,
    given_name: bool,
    rule: Option<GivenNameRule>,
    year_suffix: bool,
}

fn disambiguation_of(alloc: Global, element: &Element) -> Result<Disambiguation, Stop> {
    let rule = "givenname-disambiguation-rule";
    Ok(Disambiguation {
        names: is_true(alloc, element, "disambiguate-add-names")?,
        given_name: is_true(alloc, element, "disambiguate-add-givenname")?,
        rule: named(alloc, element, rule, GIVEN_NAME_RULES)?,
        year_suffix: is_true(alloc, element, "disambiguate-add-year-suffix")?,
    })
}

/// What stands between the cites of a group, between year suffixes, and behind collapsed cites.
fn delimiters_of(
    alloc: Global,
    element: &Element,
) -> Result<(Option<String>, Option<String>, Option<String>), Stop> {
    let group = text(alloc, element, "cite-group-delimiter")?;
    let suffix = text(alloc, element, "year-suffix-delimiter")?;
    let behind = text(alloc, element, "after-collapse-delimiter")?;
    Ok((group, suffix, behind))
}

fn bibliography_options(alloc: Global, element: &Element) -> Result<BibliographyOptions, Stop> {
    let align = named(alloc, element, "second-field-align", SECOND_FIELD_ALIGNS)?;
    let hanging_indent = is_true(alloc, element, "hanging-indent")?;
    let (line_spacing, entry_spacing) = spacing_of(alloc, element)?;
    let rule = "subsequent-author-substitute-rule";
    let rule = named(alloc, element, rule, SUBSTITUTE_RULES)?;
    Ok(BibliographyOptions {
        hanging_indent,
        second_field_align: align,
        line_spacing,
        entry_spacing,
        subsequent_author_substitute: text(alloc, element, "subsequent-author-substitute")?,
        substitute_rule: rule.unwrap_or(SubstituteRule::CompleteAll),
    })
}

/// The distances of lines and of items.
fn spacing_of(alloc: Global, element: &Element) -> Result<(u32, u32), Stop> {
    let line = number(alloc, element, "line-spacing", 1)?;
    let entry = number(alloc, element, "entry-spacing", 0)?;
    Ok((line.unwrap_or(1), entry.unwrap_or(1)))
}

/// The keys of the `sort` in a section, if any.
fn sort_of(section: &Element, reading: &mut Reading<'_>) -> Result<Vec<SortKey>, Stop> {
    match only_child(reading.alloc, section, "sort")? {
        Some(sort) => keys_of(sort, reading),
        None => Ok(Vec::new(reading.alloc)),
    }
}

fn keys_of(sort: &Element, reading: &mut Reading<'_>) -> Result<Vec<SortKey>, Stop> {
    check(sort, &SORT, reading)?;
    let mut keys = Vec::new(reading.alloc);
    for child in sort.children() {
        if csl_name(child) == "key" {
            let key = key_of(child, reading);
            if let Some(Some(key)) = reading.go_on(key)? {
                keys.push(key)?;
            }
        }
    }
    Ok(keys)
}

/// The attributes that say what a key sorts by.
const SORTED: &[&str] = &["variable", "macro"];

/// The key that an element `key` is; none where its variable is unknown.
fn key_of(element: &Element, reading: &mut Reading<'_>) -> Result<Option<SortKey>, Stop> {
    check(element, &KEY, reading)?;
    let attribute = only(reading.alloc, element, SORTED)?;
    match sort_by(attribute, reading)? {
        Some(by) => Ok(Some(key_by(reading.alloc, element, by)?)),
        None => Ok(None),
    }
}

/// The key that sorts by this.
fn key_by(alloc: Global, element: &Element, by: SortBy) -> Result<SortKey, Stop> {
    let direction = named(alloc, element, "sort", SORT_DIRECTIONS)?;
    Ok(SortKey {
        by,
        direction: direction.unwrap_or(SortDirection::Ascending),
        names_min: number(alloc, element, "names-min", 0)?,
        names_use_first: number(alloc, element, "names-use-first", 0)?,
        names_use_last: truth(alloc, element, "names-use-last")?,
    })
}

/// What a key sorts by; none where its variable is unknown.
fn sort_by(attribute: &Attribute, reading: &mut Reading<'_>) -> Result<Option<SortBy>, Stop> {
    if attribute.name.as_str() == "macro" {
        let index = reading.macros.index_of(reading.alloc, attribute)?;
        return Ok(Some(SortBy::Macro(index)));
    }
    let found = variable(reading, attribute.offset, attribute.value.as_str())?;
    Ok(found.map(SortBy::Variable))
}

/// The `layout` in a section.
fn layout_of(section: &Element, reading: &mut Reading<'_>) -> Result<Layout, Stop> {
    let layout = needed_child(reading.alloc, section, "layout")?;
    check(layout, &LAYOUT, reading)?;
    let size = reading.macros.check_layout(reading.alloc, layout);
    reading.go_on(size)?;
    let elements = elements_of(layout, reading)?;
    layout_with(reading.alloc, layout, elements)
}

/// A `layout` of these elements.
fn layout_with(
    alloc: Global,
    layout: &Element,
    elements: Vec<RenderingElement>,
) -> Result<Layout, Stop> {
    let delimiter = text_or_empty(alloc, layout, "delimiter")?;
    let (affixes, formatting) = setting_of(alloc, layout)?;
    Ok(Layout {
        delimiter,
        elements,
        affixes,
        formatting,
        offset: layout.offset,
    })
}

//! Affixes, formatting, display and text-case.
use std::alloc::{AllocError, Global};
use style_elements::attributes::{is_true, named, text_or_empty};
use style_elements::stop::Stop;
use style_elements::tables::{
    DISPLAYS, FONT_STYLES, FONT_VARIANTS, FONT_WEIGHTS, TEXT_CASES, TEXT_DECORATIONS,
    VERTICAL_ALIGNS,
};
use style_file::formatting::{Affixes, Display, Formatting, TextCase};
use style_xml::tree::Element;

/// What stands around an element's text, and how the text is set.
pub(crate) fn setting_of(alloc: Global, element: &Element) -> Result<(Affixes, Formatting), Stop> {
    let formatting = formatting_of(alloc, element)?;
    Ok((affixes_of(alloc, element)?, formatting))
}

fn affixes_of(alloc: Global, element: &Element) -> Result<Affixes, AllocError> {
    Ok(Affixes {
        prefix: text_or_empty(alloc, element, "prefix")?,
        suffix: text_or_empty(alloc, element, "suffix")?,
    })
}

pub(crate) fn formatting_of(alloc: Global, element: &Element) -> Result<Formatting, Stop> {
    Ok(Formatting {
        font_style: named(alloc, element, "font-style", FONT_STYLES)?,
        font_variant: named(alloc, element, "font-variant", FONT_VARIANTS)?,
        font_weight: named(alloc, element, "font-weight", FONT_WEIGHTS)?,
        text_decoration: named(alloc, element, "text-decoration", TEXT_DECORATIONS)?,
        vertical_align: named(alloc, element, "vertical-align", VERTICAL_ALIGNS)?,
    })
}

pub(crate) fn display_of(alloc: Global, element: &Element) -> Result<Option<Display>, Stop> {
    named(alloc, element, "display", DISPLAYS)
}

pub(crate) fn text_case_of(alloc: Global, element: &Element) -> Result<Option<TextCase>, Stop> {
    named(alloc, element, "text-case", TEXT_CASES)
}

/// The case of an element's text, and whether periods are taken out of it.
pub(crate) fn wording_of(
    alloc: Global,
    element: &Element,
) -> Result<(Option<TextCase>, bool), Stop> {
    let strip_periods = is_true(alloc, element, "strip-periods")?;
    Ok((text_case_of(alloc, element)?, strip_periods))
}

//! Names and labels.
use crate::formatting::{display_of, formatting_of, setting_of, text_case_of, wording_of};
use std::alloc::Global;
use style_elements::attributes::{attribute, named, needed_value, number, text, truth};
use style_elements::children::{csl_name, only_child};
use style_elements::fault::Wanted;
use style_elements::reading::Reading;
use style_elements::shape::{ET_AL, NAME, NAME_PART, NAMES, NAMES_LABEL, check};
use style_elements::stop::Stop;
use style_elements::tables::{
    DELIMITER_PRECEDES, ET_AL_TERMS, LABEL_PLURALS, NAME_ANDS, NAME_FORMS, NAME_ORDERS,
};
use style_elements::words::name_variable;
use style_file::element::RenderingElement;
use style_file::names::{
    DelimiterPrecedes, EtAl, EtAlTerm, InheritedNameOptions, LabelOptions, LabelPlural, LabelSide,
    Name, NameAsSortOrder, NameOptions, NamePart, Names, NamesLabel,
};
use style_file::term::{TERM_FORMS, TermForm};
use style_file::variable::NameVariable;
use style_xml::tree::Element;

/// Refuses a `names` with elements that it may not have, or with a second `substitute`.
pub(crate) fn check_names(names: &Element, reading: &mut Reading<'_>) -> Result<(), Stop> {
    check(names, &NAMES, reading)?;
    only_child(reading.alloc, names, "substitute")?;
    Ok(())
}

/// A `names` in whose place this is written where there are none.
pub(crate) fn names_with(
    element: &Element,
    substitute: Vec<RenderingElement>,
    reading: &mut Reading<'_>,
) -> Result<Names, Stop> {
    let alloc = reading.alloc;
    let delimiter = text(alloc, element, "delimiter")?;
    let et_al = et_al_of(element, reading)?;
    let variables = name_variables(element, reading)?;
    let (name, label) = name_and_label(element, reading)?;
    let display = display_of(alloc, element)?;
    let (affixes, formatting) = setting_of(alloc, element)?;
    Ok(Names {
        delimiter,
        variables,
        name,
        et_al,
        label,
        substitute,
        affixes,
        formatting,
        display,
        offset: element.offset,
    })
}

/// The variables of a `names`. Those that CSL 1.0.2 lacks are left out. Without the attribute there
/// are none, so that what stands in is written.
fn name_variables(element: &Element, reading: &mut Reading<'_>) -> Result<Vec<NameVariable>, Stop> {
    let mut variables = Vec::new(reading.alloc);
    let Some(attribute) = attribute(element, "variable") else {
        return Ok(variables);
    };
    for word in attribute.value.as_str().split_ascii_whitespace() {
        if let Some(variable) = name_variable(reading, attribute.offset, word)? {
            variables.push(variable)?;
        }
    }
    Ok(variables)
}

/// The `name` and the `label` in a `names`. The label follows the names where it follows their
/// `name`.
fn name_and_label(
    names: &Element,
    reading: &mut Reading<'_>,
) -> Result<(Option<Name>, Option<NamesLabel>), Stop> {
    let name = only_child(reading.alloc, names, "name")?;
    let label = only_child(reading.alloc, names, "label")?;
    let side = match (name, label) {
        (Some(name), Some(label)) if name.offset < label.offset => LabelSide::Behind,
        _ => LabelSide::Before,
    };
    let label = optional_label(label, side, reading)?;
    Ok((optional_name(name, reading)?, label))
}

fn optional_label(
    element: Option<&Element>,
    side: LabelSide,
    reading: &mut Reading<'_>,
) -> Result<Option<NamesLabel>, Stop> {
    let Some(element) = element else {
        return Ok(None);
    };
    check(element, &NAMES_LABEL, reading)?;
    Ok(Some(NamesLabel {
        side,
        options: label_options(reading.alloc, element)?,
    }))
}

/// How a label is written.
pub(crate) fn label_options(alloc: Global, element: &Element) -> Result<LabelOptions, Stop> {
    let form = named(alloc, element, "form", TERM_FORMS)?;
    let plural = named(alloc, element, "plural", LABEL_PLURALS)?;
    let (text_case, strip_periods) = wording_of(alloc, element)?;
    let (affixes, formatting) = setting_of(alloc, element)?;
    Ok(LabelOptions {
        form: form.unwrap_or(TermForm::Long),
        plural: plural.unwrap_or(LabelPlural::Contextual),
        affixes,
        formatting,
        text_case,
        strip_periods,
    })
}

fn optional_name(
    element: Option<&Element>,
    reading: &mut Reading<'_>,
) -> Result<Option<Name>, Stop> {
    let Some(element) = element else {
        return Ok(None);
    };
    check(element, &NAME, reading)?;
    let parts = name_parts(element, reading)?;
    Ok(Some(name_with(reading.alloc, element, parts)?))
}

/// A `name` with these parts.
fn name_with(alloc: Global, element: &Element, parts: NameParts) -> Result<Name, Stop> {
    let NameParts { given, family } = parts;
    let (affixes, formatting) = setting_of(alloc, element)?;
    Ok(Name {
        options: options_of(alloc, element, "form", "delimiter")?,
        given,
        family,
        affixes,
        formatting,
    })
}

/// The parts of names that may be set differently.
#[derive(Drop)]
struct NameParts {
    given: Option<NamePart>,
    family: Option<NamePart>,
}

/// The value of a name part's `name`.
#[derive(Clone, Copy)]
enum PartName {
    Given,
    Family,
}

const PART_NAMES: &[(&str, PartName)] = &[("given", PartName::Given), ("family", PartName::Family)];

/// The parts of names, by the `name-part` elements of a `name`.
fn name_parts(name: &Element, reading: &mut Reading<'_>) -> Result<NameParts, Stop> {
    let mut parts = NameParts {
        given: None,
        family: None,
    };
    for child in name.children() {
        if csl_name(child) == "name-part" {
            add_name_part(child, &mut parts, reading)?;
        }
    }
    Ok(parts)
}

/// Adds a `name-part`.
fn add_name_part(
    element: &Element,
    parts: &mut NameParts,
    reading: &mut Reading<'_>,
) -> Result<(), Stop> {
    check(element, &NAME_PART, reading)?;
    let name = needed_value(reading.alloc, element, "name", PART_NAMES)?;
    let part = name_part_of(reading.alloc, element)?;
    let earlier = match name {
        PartName::Given => parts.given.replace(part),
        PartName::Family => parts.family.replace(part),
    };
    match earlier {
        None => Ok(()),
        Some(_) => Err(reading.stop(element.offset, element.name.as_str(), Wanted::OneElement)),
    }
}

fn name_part_of(alloc: Global, element: &Element) -> Result<NamePart, Stop> {
    let text_case = text_case_of(alloc, element)?;
    let (affixes, formatting) = setting_of(alloc, element)?;
    Ok(NamePart {
        affixes,
        formatting,
        text_case,
    })
}

/// The `et-al` in a `names`.
fn et_al_of(names: &Element, reading: &mut Reading<'_>) -> Result<Option<EtAl>, Stop> {
    let Some(element) = only_child(reading.alloc, names, "et-al")? else {
        return Ok(None);
    };
    check(element, &ET_AL, reading)?;
    let term = named(reading.alloc, element, "term", ET_AL_TERMS)?;
    Ok(Some(EtAl {
        term: term.unwrap_or(EtAlTerm::EtAl),
        formatting: formatting_of(reading.alloc, element)?,
    }))
}

/// The options of names that a `style`, `citation` or `bibliography` hands down.
pub(crate) fn inherited_options(
    alloc: Global,
    element: &Element,
) -> Result<InheritedNameOptions, Stop> {
    let names_delimiter = text(alloc, element, "names-delimiter")?;
    Ok(InheritedNameOptions {
        name: options_of(alloc, element, "name-form", "name-delimiter")?,
        names_delimiter,
    })
}

/// The options of names, where their form and their delimiter are attributes of these names.
fn options_of(
    alloc: Global,
    element: &Element,
    form: &'static str,
    delimiter: &str,
) -> Result<NameOptions, Stop> {
    let and = named(alloc, element, "and", NAME_ANDS)?;
    let form = named(alloc, element, form, NAME_FORMS)?;
    let delimiters = precedence_of(alloc, element)?;
    let limits = et_al_limits(alloc, element)?;
    let order = order_of(alloc, element)?;
    let (delimiter, initialize_with, sort_separator) = name_texts(alloc, element, delimiter)?;
    Ok(NameOptions {
        and,
        delimiter,
        delimiter_precedes_et_al: delimiters.et_al,
        delimiter_precedes_last: delimiters.last,
        et_al_min: limits.min,
        et_al_use_first: limits.use_first,
        et_al_subsequent_min: limits.subsequent_min,
        et_al_subsequent_use_first: limits.subsequent_use_first,
        et_al_use_last: limits.use_last,
        form,
        initialize: order.initialize,
        initialize_with,
        name_as_sort_order: order.sorted,
        sort_separator,
    })
}

/// Before what the delimiter of names stands.
#[derive(Clone, Copy)]
struct Precedence {
    et_al: Option<DelimiterPrecedes>,
    last: Option<DelimiterPrecedes>,
}

fn precedence_of(alloc: Global, element: &Element) -> Result<Precedence, Stop> {
    Ok(Precedence {
        et_al: named(
            alloc,
            element,
            "delimiter-precedes-et-al",
            DELIMITER_PRECEDES,
        )?,
        last: named(
            alloc,
            element,
            "delimiter-precedes-last",
            DELIMITER_PRECEDES,
        )?,
    })
}

/// How many names are written.
#[derive(Clone, Copy)]
struct EtAlLimits {
    min: Option<u32>,
    use_first: Option<u32>,
    subsequent_min: Option<u32>,
    subsequent_use_first: Option<u32>,
    use_last: Option<bool>,
}

fn et_al_limits(alloc: Global, element: &Element) -> Result<EtAlLimits, Stop> {
    Ok(EtAlLimits {
        min: number(alloc, element, "et-al-min", 0)?,
        use_first: number(alloc, element, "et-al-use-first", 0)?,
        subsequent_min: number(alloc, element, "et-al-subsequent-min", 0)?,
        subsequent_use_first: number(alloc, element, "et-al-subsequent-use-first", 0)?,
        use_last: truth(alloc, element, "et-al-use-last")?,
    })
}

/// How the parts of names follow each other.
#[derive(Clone, Copy)]
struct NameOrder {
    initialize: Option<bool>,
    sorted: Option<NameAsSortOrder>,
}

fn order_of(alloc: Global, element: &Element) -> Result<NameOrder, Stop> {
    Ok(NameOrder {
        initialize: truth(alloc, element, "initialize")?,
        sorted: named(alloc, element, "name-as-sort-order", NAME_ORDERS)?,
    })
}

/// The delimiter of names, by its attribute, their `initialize-with` and their `sort-separator`.
fn name_texts(
    alloc: Global,
    element: &Element,
    delimiter: &str,
) -> Result<(Option<String>, Option<String>, Option<String>), Stop> {
    let delimiter = text(alloc, element, delimiter)?;
    let initialize_with = text(alloc, element, "initialize-with")?;
    let sort_separator = text(alloc, element, "sort-separator")?;
    Ok((delimiter, initialize_with, sort_separator))
}

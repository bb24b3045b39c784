//! Dates.
use crate::formatting::{display_of, formatting_of, setting_of, text_case_of, wording_of};
use std::alloc::Global;
use style_elements::attributes::{named, needed, needed_value, text, text_or_empty};
use style_elements::children::{csl_name, missing};
use style_elements::reading::Reading;
use style_elements::shape::{DATE, DATE_PART, LOCALE_DATE, check};
use style_elements::stop::Stop;
use style_elements::tables::{DATE_FORMS, DATE_PARTS, DAY_FORMS, MONTH_FORMS, YEAR_FORMS};
use style_elements::words::date_variable;
use style_file::date::{Date, DateForm, DateFormat, DatePart, DatePartName, DateParts};
use style_file::element::RenderingElement;
use style_file::locale::LocaleDate;
use style_file::variable::DateVariable;
use style_xml::tree::Element;

/// The element that a `date` is.
pub(crate) fn date_of(
    element: &Element,
    reading: &mut Reading<'_>,
) -> Result<RenderingElement, Stop> {
    check(element, &DATE, reading)?;
    let name = needed(reading.alloc, element, "variable")?;
    let variable = date_variable(reading, name.offset, name.value.as_str())?;
    let format = format_of(element, reading)?;
    match variable {
        Some(variable) => date_with(reading.alloc, element, variable, format),
        None => Ok(RenderingElement::UnknownVariable),
    }
}

/// A `date` of this variable and this form.
fn date_with(
    alloc: Global,
    element: &Element,
    variable: DateVariable,
    format: DateFormat,
) -> Result<RenderingElement, Stop> {
    let display = display_of(alloc, element)?;
    let text_case = text_case_of(alloc, element)?;
    let (affixes, formatting) = setting_of(alloc, element)?;
    Ok(RenderingElement::Date(Date {
        variable,
        format,
        affixes,
        formatting,
        display,
        text_case,
        offset: element.offset,
    }))
}

/// Where the form of a `date` comes from.
fn format_of(element: &Element, reading: &mut Reading<'_>) -> Result<DateFormat, Stop> {
    let form = named(reading.alloc, element, "form", DATE_FORMS)?;
    let parts = parts_of(element, reading)?;
    match form {
        Some(form) => localized(reading.alloc, element, form, parts),
        None => own_format(reading.alloc, element, parts),
    }
}

/// The form that the locale has for a `date`, with these settings of its parts.
fn localized(
    alloc: Global,
    element: &Element,
    form: DateForm,
    settings: Vec<DatePart>,
) -> Result<DateFormat, Stop> {
    let parts = named(alloc, element, "date-parts", DATE_PARTS)?;
    Ok(DateFormat::Localized {
        form,
        parts: parts.unwrap_or(DateParts::YearMonthDay),
        settings,
    })
}

/// The form that the parts of a `date` give.
fn own_format(alloc: Global, element: &Element, parts: Vec<DatePart>) -> Result<DateFormat, Stop> {
    if parts.is_empty() {
        return Err(missing(alloc, element, "date-part"));
    }
    Ok(DateFormat::Own {
        delimiter: text_or_empty(alloc, element, "delimiter")?,
        parts,
    })
}

/// The parts of a date, in the order of the file.
fn parts_of(date: &Element, reading: &mut Reading<'_>) -> Result<Vec<DatePart>, Stop> {
    let mut parts = Vec::new(reading.alloc);
    for child in date.children() {
        if csl_name(child) == "date-part" {
            parts.push(part_of(child, reading)?)?;
        }
    }
    Ok(parts)
}

/// The part that a `date-part` is.
fn part_of(element: &Element, reading: &mut Reading<'_>) -> Result<DatePart, Stop> {
    let alloc = reading.alloc;
    check(element, &DATE_PART, reading)?;
    let name = part_name(alloc, element)?;
    let (text_case, strip_periods) = wording_of(alloc, element)?;
    let range_delimiter = text(alloc, element, "range-delimiter")?;
    let (affixes, formatting) = setting_of(alloc, element)?;
    Ok(DatePart {
        name,
        range_delimiter,
        affixes,
        formatting,
        text_case,
        strip_periods,
    })
}

/// The value of a date part's `name`.
#[derive(Clone, Copy)]
enum PartName {
    Day,
    Month,
    Year,
}

const PART_NAMES: &[(&str, PartName)] = &[
    ("day", PartName::Day),
    ("month", PartName::Month),
    ("year", PartName::Year),
];

/// Which part a `date-part` is, and its form.
fn part_name(alloc: Global, element: &Element) -> Result<DatePartName, Stop> {
    Ok(match needed_value(alloc, element, "name", PART_NAMES)? {
        PartName::Day => DatePartName::Day(named(alloc, element, "form", DAY_FORMS)?),
        PartName::Month => DatePartName::Month(named(alloc, element, "form", MONTH_FORMS)?),
        PartName::Year => DatePartName::Year(named(alloc, element, "form", YEAR_FORMS)?),
    })
}

/// The `date` of a locale.
pub(crate) fn locale_date_of(
    element: &Element,
    reading: &mut Reading<'_>,
) -> Result<LocaleDate, Stop> {
    check(element, &LOCALE_DATE, reading)?;
    let parts = parts_of(element, reading)?;
    locale_date_with(reading.alloc, element, parts)
}

/// The `date` of a locale with these parts.
fn locale_date_with(
    alloc: Global,
    element: &Element,
    parts: Vec<DatePart>,
) -> Result<LocaleDate, Stop> {
    let form = needed_value(alloc, element, "form", DATE_FORMS)?;
    let formatting = formatting_of(alloc, element)?;
    let text_case = text_case_of(alloc, element)?;
    Ok(LocaleDate {
        form,
        parts,
        delimiter: text_or_empty(alloc, element, "delimiter")?,
        formatting,
        text_case,
    })
}

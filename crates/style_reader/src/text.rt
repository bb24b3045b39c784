//! Texts, numbers and labels.
use crate::formatting::{display_of, setting_of, text_case_of, wording_of};
use crate::names::label_options;
use std::alloc::Global;
use style_elements::attributes::{is_true, named, needed, only};
use style_elements::fault::VariableKinds;
use style_elements::reading::Reading;
use style_elements::shape::{LABEL, NUMBER, TEXT, check};
use style_elements::stop::Stop;
use style_elements::tables::{NUMBER_FORMS, VARIABLE_FORMS};
use style_elements::words::{number_variable, other_kind, term_name, variable};
use style_file::element::{
    Label, Number, NumberForm, RenderingElement, Text, TextSource, VariableForm,
};
use style_file::term::{TERM_FORMS, TermForm};
use style_file::variable::{NumberVariable, Variable};
use style_xml::tree::{Attribute, Element};

/// The attributes that say what a text writes.
const SOURCES: &[&str] = &["variable", "macro", "term", "value"];

/// The element that a `text` is; none where its term is unknown.
pub(crate) fn text_of(
    element: &Element,
    reading: &mut Reading<'_>,
) -> Result<Option<RenderingElement>, Stop> {
    check(element, &TEXT, reading)?;
    let attribute = only(reading.alloc, element, SOURCES)?;
    match source_of(element, attribute, reading)? {
        Some(source) => text_with(reading.alloc, element, source),
        None if attribute.name.as_str() == "variable" => {
            Ok(Some(RenderingElement::UnknownVariable))
        }
        None => Ok(None),
    }
}

/// A `text` that writes this.
fn text_with(
    alloc: Global,
    element: &Element,
    source: TextSource,
) -> Result<Option<RenderingElement>, Stop> {
    let display = display_of(alloc, element)?;
    let quotes = is_true(alloc, element, "quotes")?;
    let (text_case, strip_periods) = wording_of(alloc, element)?;
    let (affixes, formatting) = setting_of(alloc, element)?;
    Ok(Some(RenderingElement::Text(Text {
        source,
        affixes,
        formatting,
        display,
        text_case,
        quotes,
        strip_periods,
        offset: element.offset,
    })))
}

/// What a text writes; none where it is unknown.
fn source_of(
    element: &Element,
    attribute: &Attribute,
    reading: &mut Reading<'_>,
) -> Result<Option<TextSource>, Stop> {
    match attribute.name.as_str() {
        "variable" => variable_source(element, attribute, reading),
        "term" => term_source(element, attribute, reading),
        "macro" => {
            let index = reading.macros.index_of(reading.alloc, attribute)?;
            Ok(Some(TextSource::Macro(index)))
        }
        _ => Ok(Some(TextSource::Value(attribute.value.clone()?))),
    }
}

/// The variable that a text writes; none where it is unknown.
fn variable_source(
    element: &Element,
    attribute: &Attribute,
    reading: &mut Reading<'_>,
) -> Result<Option<TextSource>, Stop> {
    let name = attribute.value.as_str();
    let form = named(reading.alloc, element, "form", VARIABLE_FORMS)?;
    match variable(reading, attribute.offset, name)? {
        None => Ok(None),
        Some(Variable::Text(variable)) => Ok(Some(TextSource::Variable {
            variable,
            form: form.unwrap_or(VariableForm::Long),
        })),
        Some(Variable::Number(variable)) => Ok(Some(TextSource::Number(variable))),
        Some(_) => Err(other_kind(reading, attribute.offset, name, VariableKinds::TextOrNumber)),
    }
}

/// The term that a text writes; none where it is unknown.
fn term_source(
    element: &Element,
    attribute: &Attribute,
    reading: &mut Reading<'_>,
) -> Result<Option<TextSource>, Stop> {
    let form = named(reading.alloc, element, "form", TERM_FORMS)?;
    let plural = is_true(reading.alloc, element, "plural")?;
    match term_name(reading, attribute.offset, attribute.value.as_str())? {
        Some(name) => Ok(Some(TextSource::Term {
            name,
            form: form.unwrap_or(TermForm::Long),
            plural,
        })),
        None => Ok(None),
    }
}

/// The element that a `number` is.
pub(crate) fn number_of(
    element: &Element,
    reading: &mut Reading<'_>,
) -> Result<RenderingElement, Stop> {
    check(element, &NUMBER, reading)?;
    let name = needed(reading.alloc, element, "variable")?;
    match number_variable(reading, name.offset, name.value.as_str())? {
        Some(variable) => number_with(reading.alloc, element, variable),
        None => Ok(RenderingElement::UnknownVariable),
    }
}

/// A `number` of this variable.
fn number_with(
    alloc: Global,
    element: &Element,
    variable: NumberVariable,
) -> Result<RenderingElement, Stop> {
    let form = named(alloc, element, "form", NUMBER_FORMS)?;
    let display = display_of(alloc, element)?;
    let text_case = text_case_of(alloc, element)?;
    let (affixes, formatting) = setting_of(alloc, element)?;
    Ok(RenderingElement::Number(Number {
        variable,
        form: form.unwrap_or(NumberForm::Numeric),
        affixes,
        formatting,
        display,
        text_case,
        offset: element.offset,
    }))
}

/// The element that a `label` is.
pub(crate) fn label_of(
    element: &Element,
    reading: &mut Reading<'_>,
) -> Result<RenderingElement, Stop> {
    check(element, &LABEL, reading)?;
    let name = needed(reading.alloc, element, "variable")?;
    match number_variable(reading, name.offset, name.value.as_str())? {
        Some(variable) => Ok(RenderingElement::Label(Label {
            variable,
            options: label_options(reading.alloc, element)?,
            offset: element.offset,
        })),
        None => Ok(RenderingElement::UnknownVariable),
    }
}

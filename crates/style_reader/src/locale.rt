//! What a locale says, in a locale file or in a style.
use crate::date::locale_date_of;
use std::alloc::{AllocError, Global};
use style_elements::attributes::{named, needed, text, truth};
use style_elements::children::{csl_name, missing, only_child};
use style_elements::reading::Reading;
use style_elements::shape::{LOCALE, STYLE_OPTIONS, TERM, TERMS, check};
use style_elements::stop::Stop;
use style_elements::words::term_name;
use style_file::locale::{Locale, LocaleDate, LocaleOptions, StyleLocale, Term, TermWords};
use style_file::term::{GENDERS, ORDINAL_MATCHES, TERM_FORMS, TermForm, TermName};
use style_xml::tree::{Element, text_of};

/// The locales of a style, in the order of the file.
pub(crate) fn style_locales(
    style: &Element,
    reading: &mut Reading<'_>,
) -> Result<Vec<StyleLocale>, Stop> {
    let mut locales = Vec::new(reading.alloc);
    for child in style.children() {
        if csl_name(child) == "locale" {
            let locale = style_locale(child, reading);
            if let Some(locale) = reading.go_on(locale)? {
                locales.push(locale)?;
            }
        }
    }
    Ok(locales)
}

fn style_locale(element: &Element, reading: &mut Reading<'_>) -> Result<StyleLocale, Stop> {
    let language = text(reading.alloc, element, "xml:lang")?;
    Ok(StyleLocale {
        language,
        locale: locale_of(element, reading)?,
    })
}

/// What an element `locale` says.
pub(crate) fn locale_of(element: &Element, reading: &mut Reading<'_>) -> Result<Locale, Stop> {
    check(element, &LOCALE, reading)?;
    let options = options_of(element, reading)?;
    let terms = terms_of(element, reading)?;
    Ok(Locale {
        dates: dates_of(element, reading)?,
        terms,
        options,
    })
}

/// The dates of a locale, in the order of the file.
fn dates_of(locale: &Element, reading: &mut Reading<'_>) -> Result<Vec<LocaleDate>, Stop> {
    let mut dates = Vec::new(reading.alloc);
    for child in locale.children() {
        if csl_name(child) == "date" {
            let date = locale_date_of(child, reading);
            if let Some(date) = reading.go_on(date)? {
                dates.push(date)?;
            }
        }
    }
    Ok(dates)
}

/// The options of a locale.
fn options_of(locale: &Element, reading: &mut Reading<'_>) -> Result<LocaleOptions, Stop> {
    let alloc = reading.alloc;
    let Some(element) = only_child(alloc, locale, "style-options")? else {
        return Ok(LocaleOptions {
            limit_day_ordinals_to_day_1: None,
            punctuation_in_quote: None,
        });
    };
    check(element, &STYLE_OPTIONS, reading)?;
    Ok(LocaleOptions {
        limit_day_ordinals_to_day_1: truth(alloc, element, "limit-day-ordinals-to-day-1")?,
        punctuation_in_quote: truth(alloc, element, "punctuation-in-quote")?,
    })
}

/// The terms of a locale, in the order of the file.
fn terms_of(locale: &Element, reading: &mut Reading<'_>) -> Result<Vec<Term>, Stop> {
    match only_child(reading.alloc, locale, "terms")? {
        Some(terms) => terms_in(terms, reading),
        None => Ok(Vec::new(reading.alloc)),
    }
}

fn terms_in(element: &Element, reading: &mut Reading<'_>) -> Result<Vec<Term>, Stop> {
    check(element, &TERMS, reading)?;
    let mut terms = Vec::new(reading.alloc);
    for child in element.children() {
        if csl_name(child) == "term" {
            let term = term_of(child, reading);
            if let Some(Some(term)) = reading.go_on(term)? {
                terms.push(term)?;
            }
        }
    }
    Ok(terms)
}

/// The term that an element `term` is; none where it is unknown.
fn term_of(element: &Element, reading: &mut Reading<'_>) -> Result<Option<Term>, Stop> {
    check(element, &TERM, reading)?;
    let attribute = needed(reading.alloc, element, "name")?;
    match term_name(reading, attribute.offset, attribute.value.as_str())? {
        Some(name) => Ok(Some(term_with(reading.alloc, element, name)?)),
        None => Ok(None),
    }
}

/// A `term` of this name.
fn term_with(alloc: Global, element: &Element, name: TermName) -> Result<Term, Stop> {
    let form = named(alloc, element, "form", TERM_FORMS)?;
    let gender = named(alloc, element, "gender", GENDERS)?;
    let gender_form = named(alloc, element, "gender-form", GENDERS)?;
    let ordinal_match = named(alloc, element, "match", ORDINAL_MATCHES)?;
    Ok(Term {
        name,
        form: form.unwrap_or(TermForm::Long),
        gender,
        gender_form,
        ordinal_match,
        words: words_of(alloc, element)?,
    })
}

/// The words of a term: its text, or those of its `single` and its `multiple`.
fn words_of(alloc: Global, term: &Element) -> Result<TermWords, Stop> {
    let single = only_child(alloc, term, "single")?;
    let multiple = only_child(alloc, term, "multiple")?;
    match (single, multiple) {
        (Some(single), Some(multiple)) => Ok(numbered(alloc, single, multiple)?),
        (None, None) => Ok(TermWords::Invariable(text_of(alloc, &term.content)?)),
        (Some(_), None) => Err(missing(alloc, term, "multiple")),
        (None, Some(_)) => Err(missing(alloc, term, "single")),
    }
}

fn numbered(alloc: Global, single: &Element, multiple: &Element) -> Result<TermWords, AllocError> {
    Ok(TermWords::Numbered {
        single: text_of(alloc, &single.content)?,
        multiple: text_of(alloc, &multiple.content)?,
    })
}

//! Small locales for tests, with the dates and some terms of CSL's locale files.
use std::alloc::{AllocError, Global};
use style_file::date::{DateForm, DatePart, DatePartName, DayForm, MonthForm};
use style_file::formatting::{Affixes, Formatting};
use style_file::locale::{Locale, LocaleDate, LocaleFile, LocaleOptions, Term, TermWords};
use style_file::term::{Gender, OrdinalMatch, TermForm, TermName};

/// Terms, one a line: its name, its form, its gender, the gender of its nouns, its match, and its
/// words for one and for many.
const ENGLISH: &str = "ordinal|||||th
ordinal-01|||||st
ordinal-02|||||nd
ordinal-03|||||rd
ordinal-11|||||th
ordinal-12|||||th
ordinal-13|||||th
long-ordinal-01|||||first
long-ordinal-02|||||second
month-01|||||January
month-05|||||May
month-07|||||July
month-12|||||December
month-12|short||||Dec.
season-03|||||Autumn
ad|||||AD
bc|||||BC
page|||||page|pages
page|short||||p.|pp.
section|||||section|sections
section|symbol||||§|§§
chapter|||||chapter|chapters
editor|verb||||edited by
open-quote|||||“
close-quote|||||”
open-inner-quote|||||‘
close-inner-quote|||||’";

/// Some French terms.
const FRENCH: &str = "ordinal|||||ᵉ
ordinal-01|||feminine|whole-number|ʳᵉ
ordinal-01|||masculine|whole-number|ᵉʳ
month-01||masculine|||janvier
month-05||masculine|||mai
month-07||masculine|||juillet
edition||feminine|||édition|éditions
open-quote|||||«\u{a0}
close-quote|||||\u{a0}»
open-inner-quote|||||“
close-inner-quote|||||”";

/// The quotation marks of British English.
const BRITISH: &str = "open-quote|||||‘
close-quote|||||’
open-inner-quote|||||“
close-inner-quote|||||”";

/// Formatting that asks for nothing.
pub const PLAIN: Formatting = Formatting {
    font_style: None,
    font_variant: None,
    font_weight: None,
    text_decoration: None,
    vertical_align: None,
};

/// The locale files of en-US, fr-FR and en-GB.
pub fn files(alloc: Global) -> Result<Vec<LocaleFile>, AllocError> {
    let american = file(alloc, "en-US", ENGLISH, Some(true), None)?;
    let french = file(alloc, "fr-FR", FRENCH, Some(false), Some(true))?;
    let british = file(alloc, "en-GB", BRITISH, Some(false), None)?;
    let mut files = Vec::new(alloc);
    push(&mut files, american)?;
    push(&mut files, french)?;
    push(&mut files, british)?;
    Ok(files)
}

fn push<T>(list: &mut Vec<T>, item: T) -> Result<(), AllocError>
where
    T: Drop,
{
    list.push(item)?;
    Ok(())
}

fn file(
    alloc: Global,
    language: &str,
    terms: &str,
    punctuation_in_quote: Option<bool>,
    limit_day_ordinals_to_day_1: Option<bool>,
) -> Result<LocaleFile, AllocError> {
    Ok(LocaleFile {
        language: String::from_str(alloc, language)?,
        locale: Locale {
            terms: terms_of(alloc, terms)?,
            dates: dates(alloc, language)?,
            options: LocaleOptions {
                limit_day_ordinals_to_day_1,
                punctuation_in_quote,
            },
        },
    })
}

fn terms_of(alloc: Global, lines: &str) -> Result<Vec<Term>, AllocError> {
    let mut terms = Vec::new(alloc);
    for line in lines.lines() {
        if let Some(term) = term_of(alloc, line)? {
            push(&mut terms, term)?;
        }
    }
    Ok(terms)
}

fn term_of(alloc: Global, line: &str) -> Result<Option<Term>, AllocError> {
    let mut fields = line.split('|');
    let Some(name) = fields.next().and_then(TermName::of_name) else {
        return Ok(None);
    };
    let form = fields
        .next()
        .and_then(TermForm::of_name)
        .unwrap_or(TermForm::Long);
    let gender = fields.next().and_then(Gender::of_name);
    let gender_form = fields.next().and_then(Gender::of_name);
    let ordinal_match = fields.next().and_then(OrdinalMatch::of_name);
    let single = String::from_str(alloc, fields.next().unwrap_or(""))?;
    let words = match fields.next() {
        Some(multiple) => TermWords::Numbered {
            single,
            multiple: String::from_str(alloc, multiple)?,
        },
        None => TermWords::Invariable(single),
    };
    Ok(Some(Term {
        name,
        form,
        gender,
        gender_form,
        ordinal_match,
        words,
    }))
}

/// The dates of en-US, of fr-FR and of en-GB.
fn dates(alloc: Global, language: &str) -> Result<Vec<LocaleDate>, AllocError> {
    let day = DatePartName::Day(None);
    let month = DatePartName::Month(None);
    let year = DatePartName::Year(None);
    let two_digits = DatePartName::Day(Some(DayForm::NumericLeadingZeros));
    let number = DatePartName::Month(Some(MonthForm::NumericLeadingZeros));
    let (text, numeric) = if language == "en-US" {
        (
            [(month, " "), (day, ", "), (year, "")],
            [(number, "/"), (two_digits, "/"), (year, "")],
        )
    } else {
        (
            [(day, " "), (month, " "), (year, "")],
            [(two_digits, "/"), (number, "/"), (year, "")],
        )
    };
    let mut dates = Vec::new(alloc);
    push(&mut dates, date(alloc, DateForm::Text, &text)?)?;
    push(&mut dates, date(alloc, DateForm::Numeric, &numeric)?)?;
    Ok(dates)
}

fn date(
    alloc: Global,
    form: DateForm,
    parts: &[(DatePartName, &str)],
) -> Result<LocaleDate, AllocError> {
    let mut list = Vec::new(alloc);
    for (name, suffix) in parts {
        push(&mut list, part(alloc, *name, "", *suffix)?)?;
    }
    Ok(LocaleDate {
        form,
        parts: list,
        delimiter: String::new(alloc),
        formatting: PLAIN,
        text_case: None,
    })
}

/// A part of a date with these affixes.
pub fn part(
    alloc: Global,
    name: DatePartName,
    prefix: &str,
    suffix: &str,
) -> Result<DatePart, AllocError> {
    Ok(DatePart {
        name,
        range_delimiter: None,
        affixes: affixes(alloc, prefix, suffix)?,
        formatting: PLAIN,
        text_case: None,
        strip_periods: false,
    })
}

/// These affixes.
pub fn affixes(alloc: Global, prefix: &str, suffix: &str) -> Result<Affixes, AllocError> {
    Ok(Affixes {
        prefix: String::from_str(alloc, prefix)?,
        suffix: String::from_str(alloc, suffix)?,
    })
}

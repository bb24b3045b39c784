//! The forms of numbers (CSL 1.0.2, Number, and appendix III, Page Ranges).
use crate::chain::LocaleChain;
use crate::locators::{LocatorPart, locator_parts};
use cite_texts::numbers::{Number, NumberDelimiter, NumberPart, number_parts, roman};
use cite_texts::pages::{has_several_pages, page_ranges};
use std::alloc::{AllocError, Global};
use style_file::element::NumberForm;
use style_file::locator::LocatorType;
use style_file::style::PageRangeFormat;
use style_file::term::{Gender, TermForm};

/// What stands between the numbers of a range that isn't one of pages.
pub const RANGE_DELIMITER: &str = "–";

/// The text of a number variable in this form, its ordinals for a noun of this gender. A text that
/// is not numeric stays, but for the hyphens of its ranges, and for numbers before a label, as in
/// `7, p. 3-8`. A number with letters stays in any form.
///
/// # Errors
///
/// Where memory is refused.
pub fn number_text(
    alloc: Global,
    locales: &LocaleChain<'_>,
    text: &str,
    form: NumberForm,
    gender: Option<Gender>,
) -> Result<String, AllocError> {
    match number_parts(alloc, text)? {
        Some(parts) => numbers(alloc, locales, &parts, form, gender),
        None => labelled_numbers(alloc, locales, text, form, gender),
    }
}

/// A text that is not numeric as a whole. Where numbers stand before its first label, as in
/// `7, p. 3-8`, these get the form, and each label its short term.
fn labelled_numbers(
    alloc: Global,
    locales: &LocaleChain<'_>,
    text: &str,
    form: NumberForm,
    gender: Option<Gender>,
) -> Result<String, AllocError> {
    let parts = locator_parts(alloc, locales, text, LocatorType::Page)?;
    let (first, labelled) = match parts.split_first() {
        Some((first, labelled)) if !labelled.is_empty() => (first, labelled),
        _ => return ranges(alloc, text),
    };
    let Some(before) = number_parts(alloc, first.text)? else {
        return ranges(alloc, text);
    };
    let mut out = numbers(alloc, locales, &before, form, gender)?;
    for part in labelled {
        push_labelled(alloc, &mut out, locales, part)?;
    }
    Ok(out)
}

/// A text that is not numeric, with the delimiter of ranges in its ranges.
fn ranges(alloc: Global, text: &str) -> Result<String, AllocError> {
    page_ranges(alloc, text, None, RANGE_DELIMITER)
}

/// Adds a part behind its label.
fn push_labelled(
    alloc: Global,
    out: &mut String,
    locales: &LocaleChain<'_>,
    part: &LocatorPart<'_>,
) -> Result<(), AllocError> {
    let is_plural = has_several_pages(part.text);
    out.push_str(part.before)?;
    if let Some(words) = locales.plain_term(part.label.term(), TermForm::Short, is_plural) {
        out.push_str(words)?;
        out.push(' ')?;
    }
    let text = if part.label == LocatorType::Page {
        pages(alloc, locales, part.text, None)?
    } else {
        ranges(alloc, part.text)?
    };
    out.push_str(text.as_str())
}

fn numbers(
    alloc: Global,
    locales: &LocaleChain<'_>,
    parts: &[NumberPart<'_>],
    form: NumberForm,
    gender: Option<Gender>,
) -> Result<String, AllocError> {
    let mut out = String::new(alloc);
    for part in parts {
        push_number(alloc, &mut out, locales, part.number, form, gender)?;
        if let Some(delimiter) = part.delimiter {
            out.push_str(delimiter_text(delimiter))?;
        }
    }
    Ok(out)
}

fn push_number(
    alloc: Global,
    out: &mut String,
    locales: &LocaleChain<'_>,
    number: Number<'_>,
    form: NumberForm,
    gender: Option<Gender>,
) -> Result<(), AllocError> {
    let Some(value) = number.value else {
        return out.push_str(number.text);
    };
    match form {
        NumberForm::Numeric => out.push_str(number.text),
        NumberForm::Ordinal => out.push_str(ordinal(alloc, locales, value, gender)?.as_str()),
        NumberForm::LongOrdinal => {
            out.push_str(long_ordinal(alloc, locales, value, gender)?.as_str())
        }
        NumberForm::Roman => out.push_str(roman(alloc, value)?.as_str()),
    }
}

fn delimiter_text(delimiter: NumberDelimiter) -> &'static str {
    match delimiter {
        NumberDelimiter::Hyphen => RANGE_DELIMITER,
        NumberDelimiter::Comma => ", ",
        NumberDelimiter::Ampersand => " & ",
    }
}

/// A number with the suffix that makes it an ordinal: `2nd`.
///
/// # Errors
///
/// Where memory is refused.
pub fn ordinal(
    alloc: Global,
    locales: &LocaleChain<'_>,
    number: u32,
    gender: Option<Gender>,
) -> Result<String, AllocError> {
    let suffix = locales.ordinal_suffix(number, gender);
    format!(in alloc; "{number}{suffix}")
}

/// The word for an ordinal, as `second`; above ten, and where the locale has none, the number with
/// its suffix.
///
/// # Errors
///
/// Where memory is refused.
pub fn long_ordinal(
    alloc: Global,
    locales: &LocaleChain<'_>,
    number: u32,
    gender: Option<Gender>,
) -> Result<String, AllocError> {
    match locales.long_ordinal(number, gender) {
        Some(word) => String::from_str(alloc, word),
        None => ordinal(alloc, locales, number, gender),
    }
}

/// The text of a variable of pages, each range in it in this format, with the locale's delimiter
/// between its pages. Without a format the pages stay.
///
/// # Errors
///
/// Where memory is refused.
pub fn pages(
    alloc: Global,
    locales: &LocaleChain<'_>,
    text: &str,
    format: Option<PageRangeFormat>,
) -> Result<String, AllocError> {
    page_ranges(alloc, text, format, locales.page_range_delimiter())
}

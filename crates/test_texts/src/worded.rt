//! Functions over the words of locales: terms, ordinals, numbers, locators and dates.
use crate::locales::{PLAIN, affixes, part};
use crate::said::Said;
use cite_dates::sorting::sorted_date;
use cite_dates::write::{DateOptions, push_date};
use cite_locale::chain::LocaleChain;
use cite_locale::forms::{number_text, pages};
use cite_locale::locators::locator_parts;
use cite_locale::plurals::is_plural;
use cite_pieces::output::Output;
use cite_pieces::pieces::Pieces;
use cite_pieces::plain::plain_text;
use reference_values::date::Date;
use std::alloc::{AllocError, Global};
use style_file::date;
use style_file::date::{
    DateForm, DateFormat, DatePart, DatePartName, DateParts, DayForm, MonthForm, YearForm,
};
use style_file::element::NumberForm;
use style_file::item_type::ItemType;
use style_file::locale::LocaleFile;
use style_file::locator::LocatorType;
use style_file::names::LabelPlural;
use style_file::term::{Gender, PlainTerm, TermForm, TermName};
use style_file::variable::{DateVariable, NameVariable, NumberVariable};

/// TERM FORM one|many
pub fn term(locales: &LocaleChain<'_>, args: &[&str], said: &mut Said) {
    if let [name, form, count] = args {
        if let (Some(name), Some(form)) = (TermName::of_name(*name), TermForm::of_name(*form)) {
            let words = locales.term(name, form, *count == "many");
            said.give(words.unwrap_or("none"));
        }
    }
}

/// KIND NAME: the term of a variable or a type.
pub fn term_of(args: &[&str], said: &mut Said) {
    if let [kind, name] = args {
        if let Some(term) = plain_term_of(*kind, *name) {
            said.give(term.name());
        }
    }
}

fn plain_term_of(kind: &str, name: &str) -> Option<PlainTerm> {
    match kind {
        "number" => Some(NumberVariable::of_name(name)?.term()),
        "names" => Some(NameVariable::of_name(name)?.term()),
        "locator" => Some(LocatorType::of_name(name)?.term()),
        "type" => Some(ItemType::of_name(name)?.term()),
        _ => None,
    }
}

fn number_form(name: &str) -> NumberForm {
    match name {
        "ordinal" => NumberForm::Ordinal,
        "long-ordinal" => NumberForm::LongOrdinal,
        "roman" => NumberForm::Roman,
        _ => NumberForm::Numeric,
    }
}

/// FORM GENDER TEXT
pub fn number(alloc: Global, locales: &LocaleChain<'_>, args: &[&str], said: &mut Said) {
    if let [form, gender, text] = args {
        let gender = Gender::of_name(*gender);
        said.give_made(number_text(alloc, locales, *text, number_form(*form), gender));
    }
}

/// TEXT: pages without a format.
pub fn page(alloc: Global, locales: &LocaleChain<'_>, args: &[&str], said: &mut Said) {
    if let [text] = args {
        said.give_made(pages(alloc, locales, *text, None));
    }
}

/// VARIABLE TEXT
pub fn plural(args: &[&str], said: &mut Said) {
    if let [variable, text] = args {
        if let Some(variable) = NumberVariable::of_name(*variable) {
            let is_plural = is_plural(LabelPlural::Contextual, variable, *text);
            said.give(if is_plural { "plural" } else { "singular" });
        }
    }
}

/// LABEL TEXT: the parts, each with its label before it.
pub fn locator(alloc: Global, locales: &LocaleChain<'_>, args: &[&str], said: &mut Said) {
    if let [label, text] = args {
        if let Some(label) = LocatorType::of_name(*label) {
            give_locator(alloc, locales, label, *text, said);
        }
    }
}

fn give_locator(
    alloc: Global,
    locales: &LocaleChain<'_>,
    label: LocatorType,
    text: &str,
    said: &mut Said,
) {
    match locator_parts(alloc, locales, text, label) {
        Ok(parts) => {
            for part in &parts {
                said.give(part.before);
                said.give(part.label.name());
                said.give(":");
                said.give(part.text);
            }
        }
        Err(_) => said.cut(),
    }
}

/// LOCALE ELEMENT SUFFIX DATE; the suffix follows the year.
pub fn date(alloc: Global, files: &[LocaleFile], args: &[&str], said: &mut Said) {
    let [tag, element, suffix, text] = args else {
        return;
    };
    match date_element(alloc, *element) {
        Ok(Some(element)) => {
            said.give_made(read_and_written(alloc, *tag, files, &element, *suffix, *text));
            drop(element);
        }
        Ok(None) => {}
        Err(_) => said.cut(),
    }
}

fn read_and_written(
    alloc: Global,
    tag: &str,
    files: &[LocaleFile],
    element: &date::Date,
    suffix: &str,
    text: &str,
) -> Result<String, AllocError> {
    let reading = Date::of_text(alloc, text)?;
    let written = written_date(alloc, tag, files, element, &reading.date, suffix);
    drop(reading);
    written
}

/// A date as its element has it, in plain text.
fn written_date<'s>(
    alloc: Global,
    tag: &str,
    files: &'s [LocaleFile],
    element: &'s date::Date,
    date: &Date,
    suffix: &str,
) -> Result<String, AllocError> {
    let year_suffix = if suffix.is_empty() {
        None
    } else {
        Some(suffix)
    };
    let options = DateOptions {
        mark: None,
        year_suffix,
    };
    let locales = LocaleChain::new(alloc, tag, &[], files)?;
    let pieces = pieces_of_date(alloc, &locales, element, date, options)?;
    plain_text(alloc, &pieces, locales.quote_marks())
}

/// What is written of a date.
fn pieces_of_date<'s>(
    alloc: Global,
    locales: &LocaleChain<'s>,
    element: &'s date::Date,
    date: &Date,
    options: DateOptions<'_>,
) -> Result<Pieces, AllocError> {
    let mut output = Output::new(alloc, locales.language());
    push_date(&mut output, locales, element, date, options)?;
    output.finish()
}

/// DATE: the text by which it is sorted.
pub fn sorted(alloc: Global, args: &[&str], said: &mut Said) {
    let [text] = args else {
        return;
    };
    match Date::of_text(alloc, *text) {
        Ok(reading) => {
            said.give_made(sorted_date(alloc, &reading.date, 3));
            drop(reading);
        }
        Err(_) => said.cut(),
    }
}

/// A date: `text` or `numeric` and its parts, as `text:year-month`; or parts apart by `|`, each a
/// name and its form, prefix and suffix apart by `:`.
fn date_element(alloc: Global, words: &str) -> Result<Option<date::Date>, AllocError> {
    let format = match words.split_once(':') {
        Some(("text", parts)) => localized(alloc, DateForm::Text, parts),
        Some(("numeric", parts)) => localized(alloc, DateForm::Numeric, parts),
        _ => match own_parts(alloc, words)? {
            Some(parts) => DateFormat::Own {
                parts,
                delimiter: String::new(alloc),
            },
            None => return Ok(None),
        },
    };
    Ok(Some(date::Date {
        variable: DateVariable::Issued,
        format,
        affixes: affixes(alloc, "", "")?,
        formatting: PLAIN,
        display: None,
        text_case: None,
        offset: 0,
    }))
}

fn localized(alloc: Global, form: DateForm, parts: &str) -> DateFormat {
    DateFormat::Localized {
        form,
        parts: match parts {
            "year" => DateParts::Year,
            "year-month" => DateParts::YearMonth,
            _ => DateParts::YearMonthDay,
        },
        settings: Vec::new(alloc),
    }
}

fn own_parts(alloc: Global, words: &str) -> Result<Option<Vec<DatePart>>, AllocError> {
    let mut parts = Vec::new(alloc);
    for words in words.split('|') {
        match own_part(alloc, words)? {
            Some(part) => parts.push(part)?,
            None => return Ok(None),
        }
    }
    Ok(Some(parts))
}

fn own_part(alloc: Global, words: &str) -> Result<Option<DatePart>, AllocError> {
    let mut fields = words.split(':');
    let name = fields.next().unwrap_or("");
    let form = fields.next().unwrap_or("");
    let prefix = fields.next().unwrap_or("");
    let suffix = fields.next().unwrap_or("");
    match part_name(name, form) {
        Some(name) => Ok(Some(part(alloc, name, prefix, suffix)?)),
        None => Ok(None),
    }
}

fn part_name(name: &str, form: &str) -> Option<DatePartName> {
    let name = match (name, form) {
        ("day", "ordinal") => DatePartName::Day(Some(DayForm::Ordinal)),
        ("day", "numeric-leading-zeros") => DatePartName::Day(Some(DayForm::NumericLeadingZeros)),
        ("day", _) => DatePartName::Day(None),
        ("month", "short") => DatePartName::Month(Some(MonthForm::Short)),
        ("month", "numeric") => DatePartName::Month(Some(MonthForm::Numeric)),
        ("month", "numeric-leading-zeros") => {
            DatePartName::Month(Some(MonthForm::NumericLeadingZeros))
        }
        ("month", _) => DatePartName::Month(None),
        ("year", "short") => DatePartName::Year(Some(YearForm::Short)),
        ("year", _) => DatePartName::Year(None),
        _ => return None,
    };
    Some(name)
}

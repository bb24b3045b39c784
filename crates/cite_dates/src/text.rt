//! The texts of the parts of a date.
use crate::layout::PartForm;
use cite_locale::chain::LocaleChain;
use reference_values::date::{Day, Month, PartialDate, Season, YearPart};
use std::alloc::{AllocError, Global};
use style_file::date::{DayForm, MonthForm, YearForm};
use style_file::term::{PlainTerm, TermForm};

/// The last year behind which `AD` stands.
const LAST_YEAR_OF_AD: i32 = 999;

/// The text of a part of a date; `None` where the date lacks the part.
///
/// # Errors
///
/// Where memory is refused.
pub(crate) fn part_text(
    alloc: Global,
    locales: &LocaleChain<'_>,
    form: PartForm,
    date: &PartialDate,
) -> Result<Option<String>, AllocError> {
    match (form, &date.part) {
        (PartForm::Year(form), _) => Ok(Some(year_text(alloc, locales, form, date.year)?)),
        (PartForm::Month(form), Some(part)) => month_part_text(alloc, locales, form, part),
        (PartForm::Day(form), Some(YearPart::Day(month, day))) => {
            Ok(Some(day_text(alloc, locales, form, *month, *day)?))
        }
        (PartForm::Month(_), None) | (PartForm::Day(_), _) => Ok(None),
    }
}

/// A year. One before 1 has the term `bc`, and one up to 999 the term `ad`.
fn year_text(
    alloc: Global,
    locales: &LocaleChain<'_>,
    form: YearForm,
    year: i32,
) -> Result<String, AllocError> {
    let number = year.unsigned_abs();
    if form == YearForm::Short && year > LAST_YEAR_OF_AD {
        let last = number % 100;
        return format!(in alloc; "{last:02}");
    }
    let era = if year < 0 {
        term(locales, PlainTerm::Bc, TermForm::Long)
    } else if year <= LAST_YEAR_OF_AD {
        term(locales, PlainTerm::Ad, TermForm::Long)
    } else {
        ""
    };
    format!(in alloc; "{number}{era}")
}

/// What stands in the place of the month.
fn month_part_text(
    alloc: Global,
    locales: &LocaleChain<'_>,
    form: MonthForm,
    part: &YearPart,
) -> Result<Option<String>, AllocError> {
    let text = match part {
        YearPart::Month(month) | YearPart::Day(month, _) => {
            month_text(alloc, locales, form, *month)?
        }
        YearPart::Season(season) => {
            String::from_str(alloc, term(locales, season_term(*season), TermForm::Long))?
        }
        YearPart::Named(name) => name.clone()?,
    };
    Ok(Some(text))
}

fn month_text(
    alloc: Global,
    locales: &LocaleChain<'_>,
    form: MonthForm,
    month: Month,
) -> Result<String, AllocError> {
    let number = month.number();
    match form {
        MonthForm::Numeric => format!(in alloc; "{number}"),
        MonthForm::NumericLeadingZeros => format!(in alloc; "{number:02}"),
        MonthForm::Long => String::from_str(
            alloc,
            term(locales, month_term(month), TermForm::Long),
        ),
        MonthForm::Short => {
            String::from_str(alloc, term(locales, month_term(month), TermForm::Short))
        }
    }
}

/// A day. An ordinal has the gender of its month, and is a number where the locale has only the
/// first day as an ordinal.
fn day_text(
    alloc: Global,
    locales: &LocaleChain<'_>,
    form: DayForm,
    month: Month,
    day: Day,
) -> Result<String, AllocError> {
    let number = day.number();
    match form {
        DayForm::NumericLeadingZeros => format!(in alloc; "{number:02}"),
        DayForm::Ordinal if number == 1 || !locales.limits_day_ordinals() => {
            let gender = locales.gender_of(month_term(month));
            let suffix = locales.ordinal_suffix(u32::from(number), gender);
            format!(in alloc; "{number}{suffix}")
        }
        DayForm::Numeric | DayForm::Ordinal => format!(in alloc; "{number}"),
    }
}

/// The words of a term; none where no locale has them.
fn term<'a>(locales: &LocaleChain<'a>, term: PlainTerm, form: TermForm) -> &'a str {
    locales.plain_term(term, form, false).unwrap_or("")
}

fn season_term(season: Season) -> PlainTerm {
    match season {
        Season::Spring => PlainTerm::Spring,
        Season::Summer => PlainTerm::Summer,
        Season::Autumn => PlainTerm::Autumn,
        Season::Winter => PlainTerm::Winter,
    }
}

/// The term of a month.
fn month_term(month: Month) -> PlainTerm {
    match month.number() {
        1 => PlainTerm::January,
        2 => PlainTerm::February,
        3 => PlainTerm::March,
        4 => PlainTerm::April,
        5 => PlainTerm::May,
        6 => PlainTerm::June,
        7 => PlainTerm::July,
        8 => PlainTerm::August,
        9 => PlainTerm::September,
        10 => PlainTerm::October,
        11 => PlainTerm::November,
        _ => PlainTerm::December,
    }
}

//! Dates as people write them.
use crate::date::{DateReading, Day, Month, PartialDate, Season, YearPart};
use crate::edtf::edtf_date;
use crate::point::{Point, between, on};

/// The months, in English.
const MONTHS: [&str; 12] = [
    "january",
    "february",
    "march",
    "april",
    "may",
    "june",
    "july",
    "august",
    "september",
    "october",
    "november",
    "december",
];

/// The least number of digits of a year beside which no era stands: a day has two.
const YEAR_DIGITS: usize = 3;

/// The most digits of a number of a date, so that it fits an `i32`.
const MOST_DIGITS: usize = 9;

/// The date that the text gives: EDTF, numbers (`1999-5-3`, `5/3/1999`) or English words, or a
/// range of these by `–`, `-` or `/`, also within one year (`Jan-Feb 2020`); none where it gives
/// none.
pub(crate) fn date_of_text(text: &str) -> Option<DateReading> {
    let text = text.trim();
    if let Some(reading) = edtf_date(text) {
        return Some(reading);
    }
    if let Some(point) = point_of(text) {
        return Some(on(point));
    }
    range_of(text, '–')
        .or(range_of(text, '-'))
        .or(range_of(text, '/'))
}

fn range_of(text: &str, dash: char) -> Option<DateReading> {
    let (first, last) = text.split_once(dash)?;
    let first = first.trim();
    let last = point_of(last.trim())?;
    let first = point_of(first).or(point_in(first, &last.date))?;
    Some(between(first, last))
}

/// A month or a season alone, which is in the year of another one.
fn point_in(name: &str, other: &PartialDate) -> Option<Point> {
    if other.part.is_none() {
        return None;
    }
    Some(Point {
        date: PartialDate {
            year: other.year,
            part: Some(part_named(name)?),
        },
        is_uncertain: false,
        is_whole: true,
    })
}

fn point_of(text: &str) -> Option<Point> {
    let numbers = numeric_date(text, '-').or(numeric_date(text, '/'));
    match numbers {
        Some(date) => Some(Point {
            date,
            is_uncertain: false,
            is_whole: true,
        }),
        None => worded_date(text),
    }
}

// ---- dates of numbers

/// A number and how many digits it is written with.
#[derive(Clone, Copy)]
struct Digits {
    number: i32,
    count: usize,
}

fn digits_of(text: &str) -> Option<Digits> {
    if text.is_empty() || text.len() > MOST_DIGITS || !text.bytes().all(|b| b.is_ascii_digit()) {
        return None;
    }
    Some(Digits {
        number: text.parse::<i32>().ok()?,
        count: text.len(),
    })
}

/// A year and a month in any order; or a year, a month and a day; or a month, a day and a year, of
/// which the first two change places where the first is no month.
fn numeric_date(text: &str, separator: char) -> Option<PartialDate> {
    let mut parts = text.split(separator);
    let first = digits_of(parts.next()?)?;
    let second = digits_of(parts.next()?)?;
    let third = match parts.next() {
        Some(third) => Some(digits_of(third)?),
        None => None,
    };
    if parts.next().is_some() {
        return None;
    }
    match third {
        None => month_in(first, second).or(month_in(second, first)),
        Some(third) => day_in(first, second, third)
            .or(day_in(third, first, second))
            .or(day_in(third, second, first)),
    }
}

fn month_in(year: Digits, month: Digits) -> Option<PartialDate> {
    let month = Month::new(i64::from(month.number))?;
    Some(PartialDate {
        year: long_enough(year)?,
        part: Some(YearPart::Month(month)),
    })
}

fn day_in(year: Digits, month: Digits, day: Digits) -> Option<PartialDate> {
    let month = Month::new(i64::from(month.number))?;
    let day = Day::new(i64::from(day.number))?;
    Some(PartialDate {
        year: long_enough(year)?,
        part: Some(YearPart::Day(month, day)),
    })
}

/// The year, if its digits show that it is one; 0 is none.
fn long_enough(year: Digits) -> Option<i32> {
    if year.count >= YEAR_DIGITS && year.number != 0 {
        Some(year.number)
    } else {
        None
    }
}

// ---- dates of words

/// Before or after the first year.
#[derive(Clone, Copy)]
enum Era {
    Common,
    BeforeCommon,
}

/// A year; or a month or a season, and a year; or a month, a day and a year; or a day, a month and
/// a year. `circa` may stand before it or `?` behind it, AD before it, and any era behind it.
fn worded_date(text: &str) -> Option<Point> {
    let (text, is_uncertain) = without_doubt(text);
    let (text, era) = without_era(text);
    let mut words = text
        .split(|c: char| c == ',' || c.is_whitespace())
        .filter(|word| !word.is_empty());
    let first = words.next()?;
    let second = words.next();
    let third = words.next();
    if words.next().is_some() {
        return None;
    }
    let date = match (second, third) {
        (Some(second), Some(year)) => PartialDate {
            year: year_of(year, era)?,
            part: Some(day_of(first, second).or(day_of(second, first))?),
        },
        (Some(year), None) => PartialDate {
            year: year_of(year, era)?,
            part: Some(part_named(first)?),
        },
        _ => PartialDate {
            year: year_of(first, era)?,
            part: None,
        },
    };
    Some(Point {
        date,
        is_uncertain,
        is_whole: true,
    })
}

/// The text without a mark of doubt, and whether it had one.
fn without_doubt(text: &str) -> (&str, bool) {
    if let Some(text) = text.strip_suffix('?') {
        return (text, true);
    }
    match text.split_once(' ') {
        Some((first, rest)) if is_one_of(first, &["c", "c.", "ca", "ca.", "circa"]) => (rest, true),
        _ => (text, false),
    }
}

/// The text without an era, and the era.
fn without_era(text: &str) -> (&str, Option<Era>) {
    match text.split_once(' ') {
        Some((first, rest)) if is_one_of(first, &["ad", "a.d."]) => (rest, Some(Era::Common)),
        _ => match text.rsplit_once(' ') {
            Some((rest, last)) if is_one_of(last, &["bc", "b.c.", "bce", "b.c.e."]) => {
                (rest, Some(Era::BeforeCommon))
            }
            Some((rest, last)) if is_one_of(last, &["ad", "a.d.", "ce", "c.e."]) => {
                (rest, Some(Era::Common))
            }
            _ => (text, None),
        },
    }
}

fn is_one_of(word: &str, known: &[&str]) -> bool {
    known.iter().any(|k| word.eq_ignore_ascii_case(*k))
}

fn year_of(word: &str, era: Option<Era>) -> Option<i32> {
    let digits = digits_of(word)?;
    match era {
        None => long_enough(digits),
        Some(_) if digits.number == 0 => None,
        Some(Era::Common) => Some(digits.number),
        Some(Era::BeforeCommon) => digits.number.checked_neg(),
    }
}

fn part_named(word: &str) -> Option<YearPart> {
    match month_named(word) {
        Some(month) => Some(YearPart::Month(month)),
        None => Season::of_name(word).map(YearPart::Season),
    }
}

/// A month and a day, which may be written as an ordinal.
fn day_of(month: &str, day: &str) -> Option<YearPart> {
    let month = month_named(month)?;
    let bare = ["st", "nd", "rd", "th"]
        .iter()
        .find_map(|ending| day.strip_suffix(*ending));
    let digits = digits_of(bare.unwrap_or(day))?;
    Some(YearPart::Day(month, Day::new(i64::from(digits.number))?))
}

/// The month of this name, or of its first letters, three at least.
fn month_named(word: &str) -> Option<Month> {
    let word = word.strip_suffix('.').unwrap_or(word);
    if word.len() < 3 {
        return None;
    }
    let place = MONTHS.iter().position(|name| begins(name, word))?;
    Month::new(place as i64 + 1)
}

/// Whether the name, in lower case, begins with the word in any case.
fn begins(name: &str, word: &str) -> bool {
    word.len() <= name.len()
        && name
            .bytes()
            .zip(word.bytes())
            .all(|(a, b)| a == b.to_ascii_lowercase())
}

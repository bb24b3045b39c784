//! Dates in the Extended Date/Time Format (EDTF, ISO 8601-2:2019): level 0, and of level 1 the
//! seasons, the long years, the open intervals, the qualifications of a whole date and the years
//! whose last digits are not specified. Of the draft of 2012, as pandoc reads it, `open` and
//! `unknown` as ends of an interval, and a `u` for a digit that is not specified.
use crate::date::{DateReading, PartialDate, YearPart};
use crate::point::{Point, between, on, since, until};

/// An end of an interval.
#[derive(Drop)]
enum End {
    /// None, or one that is not known.
    Open,
    At(Point),
}

/// The date of the text; none where it is not in the format.
pub(crate) fn edtf_date(text: &str) -> Option<DateReading> {
    match text.split_once('/') {
        None => match point_of(text) {
            Some(point) => Some(on(point)),
            None => unspecified_years(text),
        },
        Some((first, last)) => match (end_of(first)?, end_of(last)?) {
            (End::At(first), End::At(last)) => Some(between(first, last)),
            (End::At(first), End::Open) => Some(since(first)),
            (End::Open, End::At(last)) => Some(until(last)),
            (End::Open, End::Open) => None,
        },
    }
}

fn end_of(text: &str) -> Option<End> {
    match text {
        "" | ".." | "open" | "unknown" => Some(End::Open),
        _ => Some(End::At(point_of(text)?)),
    }
}

/// How years end whose last digits are not specified, how many digits are, and how many years these
/// are.
const UNSPECIFIED: [(&str, usize, i32); 6] = [
    ("XXX", 1, 1000),
    ("XX", 2, 100),
    ("X", 3, 10),
    ("uuu", 1, 1000),
    ("uu", 2, 100),
    ("u", 3, 10),
];

/// The years whose last digits are not specified.
fn unspecified_years(text: &str) -> Option<DateReading> {
    for (ending, digits, years) in UNSPECIFIED {
        if let Some(known) = text.strip_suffix(ending) {
            let first = i32::from(number_of(known, digits)?).checked_mul(years)?;
            let last = first.checked_add(years)?.checked_sub(1)?;
            if first == 0 {
                return None;
            }
            return Some(between(year_alone(first), year_alone(last)));
        }
    }
    None
}

/// A date with its qualification.
fn point_of(text: &str) -> Option<Point> {
    let qualified = text.strip_suffix(|c: char| c == '?' || c == '~' || c == '%');
    let bare = qualified.unwrap_or(text);
    let (day, has_time) = match bare.split_once('T') {
        Some((day, time)) if time.starts_with(|c: char| c.is_ascii_digit()) => (day, true),
        Some(_) => return None,
        None => (bare, false),
    };
    let point = calendar_date(day)?;
    Some(Point {
        is_uncertain: qualified.is_some(),
        is_whole: point.is_whole && !has_time,
        date: point.date,
    })
}

/// A date without qualification and time of day.
fn calendar_date(text: &str) -> Option<Point> {
    if let Some(long) = text.strip_prefix(|c: char| c == 'Y' || c == 'y') {
        return Some(year_alone(long_year(long)?));
    }
    let unsigned = text.strip_prefix('-');
    let mut parts = unsigned.unwrap_or(text).split('-');
    let year = i64::from(number_of(parts.next()?, 4)?);
    let month = optional_number(parts.next())?;
    let day = optional_number(parts.next())?;
    if parts.next().is_some() {
        return None;
    }
    let year = csl_year(if unsigned.is_some() { -year } else { year })?;
    let reading = YearPart::of_numbers(month, day);
    Some(Point {
        date: PartialDate {
            year,
            part: reading.part,
        },
        is_uncertain: false,
        is_whole: reading.is_whole,
    })
}

fn year_alone(year: i32) -> Point {
    Point {
        date: PartialDate { year, part: None },
        is_uncertain: false,
        is_whole: true,
    }
}

/// A year of more than four digits, which follows a `Y`.
fn long_year(text: &str) -> Option<i32> {
    let digits = text.strip_prefix('-').unwrap_or(text);
    if digits.len() < 5 || !digits.bytes().all(|b| b.is_ascii_digit()) {
        return None;
    }
    csl_year(text.parse::<i64>().ok()?)
}

/// The year as CSL counts it: the year 0 of EDTF is 1 BC, which is -1.
fn csl_year(year: i64) -> Option<i32> {
    let year = if year > 0 { year } else { year.checked_sub(1)? };
    i32::try_from(year).ok()
}

/// The number of exactly so many digits.
fn number_of(text: &str, digits: usize) -> Option<u16> {
    if text.len() != digits || !text.bytes().all(|b| b.is_ascii_digit()) {
        return None;
    }
    text.parse::<u16>().ok()
}

/// The number of two digits, or 0 where there is none.
fn optional_number(text: Option<&str>) -> Option<i64> {
    match text {
        Some(text) => Some(i64::from(number_of(text, 2)?)),
        None => Some(0),
    }
}

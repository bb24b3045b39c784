//! Dates of ISO 8601 with extensions (EDTF), as .bib files have them, as dates of CSL-JSON.
use crate::months::{is_month, is_number, is_season, last_day, most_days};
use reference_items::item::{DateNumbers, ItemDate};
use std::alloc::{AllocError, Global};

/// What is not kept of a date.
#[derive(Clone, Copy, PartialEq, Eq)]
pub struct LostOfDate {
    pub time: bool,
    pub uncertain: bool,
    pub month: bool,
    pub day: bool,
    pub begin: bool,
    pub end: bool,
    /// It is no date, and stays as a text.
    pub form: bool,
}

impl LostOfDate {
    /// Nothing.
    pub const NOTHING: LostOfDate = LostOfDate {
        time: false,
        uncertain: false,
        month: false,
        day: false,
        begin: false,
        end: false,
        form: false,
    };

    /// What it is in words, and whether it is so.
    pub fn reasons(self) -> [(bool, &'static str); 7] {
        [
            (self.time, "the time of the day"),
            (self.uncertain, "that the date is uncertain"),
            (self.month, "a month that no year has"),
            (self.day, "a day that no month has"),
            (self.begin, "the open beginning of a range"),
            (self.end, "the open end of a range"),
            (self.form, "no date of a known form: kept as a text"),
        ]
    }

    fn or(self, other: LostOfDate) -> LostOfDate {
        LostOfDate {
            time: self.time || other.time,
            uncertain: self.uncertain || other.uncertain,
            month: self.month || other.month,
            day: self.day || other.day,
            begin: self.begin || other.begin,
            end: self.end || other.end,
            form: self.form || other.form,
        }
    }
}

/// What was read of a date.
#[derive(Drop)]
pub struct DateReading {
    pub date: ItemDate,
    pub lost: LostOfDate,
}

/// One date, or the first and the last of a range.
#[derive(Clone, Copy)]
struct Span {
    first: DateNumbers,
    last: Option<DateNumbers>,
    is_circa: bool,
    lost: LostOfDate,
}

/// One date, and what stands beside it.
#[derive(Clone, Copy)]
struct Point {
    numbers: DateNumbers,
    is_circa: bool,
    lost: LostOfDate,
}

/// The date, or the range of dates, that a text says, and what isn't kept of it. What is no date
/// stays as a text.
///
/// # Errors
/// Where memory is refused.
pub fn date_of(alloc: Global, text: &str) -> Result<DateReading, AllocError> {
    let text = text.trim();
    match span_of(text) {
        Some(span) => Ok(DateReading {
            date: date_of_span(alloc, span)?,
            lost: span.lost,
        }),
        None => Ok(DateReading {
            date: ItemDate {
                points: Vec::new(alloc),
                season: 0,
                is_circa: false,
                literal: String::from_str(alloc, text)?,
            },
            lost: LostOfDate {
                form: true,
                ..LostOfDate::NOTHING
            },
        }),
    }
}

/// The date of CSL-JSON. A season that stands alone has a member of its own.
fn date_of_span(alloc: Global, span: Span) -> Result<ItemDate, AllocError> {
    let mut first = span.first;
    let mut season = 0;
    if span.last.is_none() && is_season(first.month) {
        season = first.month.saturating_sub(20);
        first.month = 0;
    }
    let mut points = Vec::with_capacity(alloc, 2)?;
    points.push(first)?;
    if let Some(last) = span.last {
        points.push(last)?;
    }
    Ok(ItemDate {
        points,
        season,
        is_circa: span.is_circa,
        literal: String::new(alloc),
    })
}

fn span_of(text: &str) -> Option<Span> {
    if let Some(span) = unspecified(text).or(years_of(text)).or(circa_of(text)) {
        return Some(span);
    }
    match text.split_once('/') {
        None => Some(alone(point_of(text)?)),
        Some((first, last)) => match (is_open(first), is_open(last)) {
            (true, true) => None,
            (true, false) => {
                let mut span = alone(point_of(last)?);
                span.lost.begin = true;
                Some(span)
            }
            (false, true) => {
                let mut span = alone(point_of(first)?);
                span.lost.end = true;
                Some(span)
            }
            (false, false) => {
                let (first, last) = (point_of(first)?, point_of(last)?);
                Some(Span {
                    first: first.numbers,
                    last: Some(last.numbers),
                    is_circa: first.is_circa || last.is_circa,
                    lost: first.lost.or(last.lost),
                })
            }
        },
    }
}

fn is_open(end: &str) -> bool {
    matches!(end.trim(), "" | ".." | "open" | "unknown")
}

fn alone(point: Point) -> Span {
    Span {
        first: point.numbers,
        last: None,
        is_circa: point.is_circa,
        lost: point.lost,
    }
}

fn year_alone(year: i32) -> DateNumbers {
    DateNumbers {
        year,
        month: 0,
        day: 0,
    }
}

/// The year of four digits.
fn four_digits(text: &str) -> Option<i32> {
    if text.len() != 4 || !is_number(text) {
        return None;
    }
    text.parse::<i32>().ok()
}

// ---- dates of other forms

/// Two years with a dash between them.
fn years_of(text: &str) -> Option<Span> {
    let (first, behind) = text.split_at_checked(4)?;
    let behind = behind.trim_start();
    let last = behind
        .strip_prefix("--")
        .or(behind.strip_prefix('-'))
        .or(behind.strip_prefix('–'))?;
    Some(Span {
        first: year_alone(four_digits(first)?),
        last: Some(year_alone(four_digits(last.trim_start())?)),
        is_circa: false,
        lost: LostOfDate::NOTHING,
    })
}

/// A year behind `c.`, `ca.` or `circa`.
fn circa_of(text: &str) -> Option<Span> {
    let behind = text
        .strip_prefix("circa")
        .or(text.strip_prefix("ca"))
        .or(text.strip_prefix('c'))?;
    let year = behind.strip_prefix('.').unwrap_or(behind).trim_start();
    Some(Span {
        first: year_alone(four_digits(year)?),
        last: None,
        is_circa: true,
        lost: LostOfDate::NOTHING,
    })
}

/// A number of two digits, or none where they are `XX`.
fn two_digits(text: &str) -> Option<Option<u8>> {
    if text == "XX" {
        return Some(None);
    }
    if text.len() != 2 || !is_number(text) {
        return None;
    }
    Some(Some(text.parse::<u8>().ok()?))
}

/// The first and the last year of one whose last digits aren't specified.
fn unspecified_years(text: &str) -> Option<(i32, i32)> {
    if let Some(century) = text.strip_suffix("XX") {
        let first = i32::from(two_digits(century)??).checked_mul(100)?;
        return Some((first, first.checked_add(99)?));
    }
    if let Some(decade) = text.strip_suffix('X') {
        if decade.len() != 3 || !is_number(decade) {
            return None;
        }
        let first = i32::from(decade.parse::<i16>().ok()?).checked_mul(10)?;
        return Some((first, first.checked_add(9)?));
    }
    let year = four_digits(text)?;
    Some((year, year))
}

/// The range of a date in which digits are not specified, as `199X` or `1999-XX`.
fn unspecified(text: &str) -> Option<Span> {
    if !text.contains('X') {
        return None;
    }
    let (years, behind) = text.split_at_checked(4)?;
    let (first, last) = unspecified_years(years)?;
    let (mut first, mut last) = (year_alone(first), year_alone(last));
    match months_of(behind)? {
        Months::None => {}
        Months::All => {
            first.month = 1;
            last.month = 12;
        }
        Months::One(month) => {
            first.month = month;
            first.day = 1;
            last.month = month;
            last.day = last_day(last.year, month);
        }
    }
    if first.year == 0 {
        return None;
    }
    Some(Span {
        first,
        last: if first == last { None } else { Some(last) },
        is_circa: false,
        lost: LostOfDate::NOTHING,
    })
}

/// Which months a date has that doesn't specify them all.
#[derive(Clone, Copy)]
enum Months {
    None,
    All,
    One(u8),
}

/// The months of what follows a year.
fn months_of(behind: &str) -> Option<Months> {
    if behind.is_empty() {
        return Some(Months::None);
    }
    let behind = behind.strip_prefix('-')?;
    let (month, day) = match behind.split_once('-') {
        Some((month, day)) => (two_digits(month)?, Some(two_digits(day)?)),
        None => (two_digits(behind)?, None),
    };
    match (month, day) {
        (None, Some(None)) => Some(Months::None),
        (None, _) => Some(Months::All),
        (Some(month), _) if is_month(month) => Some(Months::One(month)),
        _ => None,
    }
}

// ---- dates of ISO 8601

/// The date that a text says.
fn point_of(text: &str) -> Option<Point> {
    let text = text.trim();
    let bare = text.strip_suffix(['~', '?', '%']).unwrap_or(text);
    let (day, has_time) = match bare.split_once('T') {
        Some((day, time)) if is_time(time) => (day, true),
        Some(_) => return None,
        None => (bare, false),
    };
    let mut point = day_of(day)?;
    point.is_circa = text.ends_with(['~', '%']);
    point.lost.time = has_time;
    point.lost.uncertain = text.ends_with('?');
    Some(point)
}

fn is_time(text: &str) -> bool {
    !text.is_empty()
        && text.bytes().all(|byte| byte.is_ascii_digit()
            || matches!(byte, b':' | b'.' | b'Z' | b'+' | b'-'))
}

/// A year, with a month and a day or without them.
fn day_of(text: &str) -> Option<Point> {
    let long = text.strip_prefix('y');
    let signed = long.unwrap_or(text);
    let bare = signed.strip_prefix('-').unwrap_or(signed);
    let (year, behind) = match bare.split_once('-') {
        Some((year, behind)) => (year, Some(behind)),
        None => (bare, None),
    };
    let has_length = if long.is_some() {
        year.len() > 4 && year.len() < 10
    } else {
        year.len() == 4
    };
    if !has_length || !is_number(year) {
        return None;
    }
    let year = year.parse::<i32>().ok()?;
    let year = if signed.len() > bare.len() {
        year.checked_neg()?
    } else {
        year
    };
    let (month, day) = month_and_day(behind)?;
    Some(point_of_numbers(year, month, day))
}

/// The numbers of a month and a day; 0 where they are absent.
fn month_and_day(text: Option<&str>) -> Option<(u8, u8)> {
    let Some(text) = text else {
        return Some((0, 0));
    };
    match text.split_once('-') {
        Some((month, day)) => Some((short_number(month)?, short_number(day)?)),
        None => Some((short_number(text)?, 0)),
    }
}

fn short_number(text: &str) -> Option<u8> {
    if text.len() > 2 || !is_number(text) {
        return None;
    }
    text.parse::<u8>().ok()
}

/// The date of these numbers. CSL counts from 1 BC, the year -1, which ISO 8601 has as 0.
fn point_of_numbers(year: i32, month: u8, day: u8) -> Point {
    let has_month = is_month(month) || is_season(month);
    let has_day = is_month(month) && day >= 1 && day <= most_days(month);
    Point {
        numbers: DateNumbers {
            year: if year > 0 {
                year
            } else {
                year.saturating_sub(1)
            },
            month: if has_month { month } else { 0 },
            day: if has_day { day } else { 0 },
        },
        is_circa: false,
        lost: LostOfDate {
            month: month != 0 && !has_month,
            day: day != 0 && !has_day,
            ..LostOfDate::NOTHING
        },
    }
}

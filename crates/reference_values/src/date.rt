//! Dates.
ghost use Rattle.std.specs.Prelude.{◌≡◌, ℕ, ◌≤◌, ◌↔◌, IsSome, IfSome};

use crate::date_text::date_of_text;
use std::alloc::{AllocError, Global};
use std::marker::Model;

/// A month, counted from 1 to 12.
#[derive(Clone, Copy, PartialEq, Eq)]
pub struct Month {
    number: u8,
}

impl Model for Month {
    ghost Value = { ℕ };

    ghost view = { λ m. m.number };

    ghost invariant = { λ m. (1 ≤ m.number) × (m.number ≤ 12) };

    ghost inverse = { λ n. record { number = n } };
}

impl Month {
    /// The month of this number, if it is one from 1 to 12.
    pub fn new(number: i64) -> Option<Month> {
        match u8::try_from(number) {
            Ok(number) if number >= 1 && number <= 12 => Some(Month { number }),
            _ => None,
        }
    }

    /// The number of the month, from 1 to 12.
    pub fn number(self) -> u8
        ensures value { result ≡ self }
        ensures first { 1 ≤ result }
        ensures last { result ≤ 12 }
    {
        self.number
    }
}

/// A day of a month, counted from 1 to 31.
#[derive(Clone, Copy, PartialEq, Eq)]
pub struct Day {
    number: u8,
}

impl Model for Day {
    ghost Value = { ℕ };

    ghost view = { λ d. d.number };

    ghost invariant = { λ d. (1 ≤ d.number) × (d.number ≤ 31) };

    ghost inverse = { λ n. record { number = n } };
}

impl Day {
    /// The day of this number, if it is one from 1 to 31.
    pub fn new(number: i64) -> Option<Day> {
        match u8::try_from(number) {
            Ok(number) if number >= 1 && number <= 31 => Some(Day { number }),
            _ => None,
        }
    }

    /// The number of the day, from 1 to 31.
    pub fn number(self) -> u8
        ensures value { result ≡ self }
        ensures first { 1 ≤ result }
        ensures last { result ≤ 31 }
    {
        self.number
    }
}

/// A season for which CSL has a term.
#[derive(Clone, Copy, PartialEq, Eq)]
pub enum Season {
    Spring,
    Summer,
    Autumn,
    Winter,
}

/// A part of a year.
#[derive(Clone, PartialEq, Eq, Drop)]
pub enum YearPart {
    Season(Season),
    /// A part that only its own name identifies, as `Trinity term`.
    Named(String),
    Month(Month),
    Day(Month, Day),
}

/// A year, or a part of one.
#[derive(Clone, PartialEq, Eq, Drop)]
pub struct PartialDate {
    /// The year; -44 is 44 BC. It is not 0.
    pub year: i32,
    pub part: Option<YearPart>,
}

/// When something was.
#[derive(Clone, PartialEq, Eq, Drop)]
pub enum DateSpan {
    On(PartialDate),
    /// From the first to the last.
    Between(PartialDate, PartialDate),
    /// From this date on; no last one is known.
    Since(PartialDate),
    /// Until this date; no first one is known.
    Until(PartialDate),
}

/// The date of a variable. It has a span or a literal.
#[derive(Clone, PartialEq, Eq, Drop)]
pub struct Date {
    pub span: Option<DateSpan>,
    /// Whether the date is approximate or uncertain, as CSL's `is-uncertain-date` tests.
    pub is_uncertain: bool,
    /// A text that is written in place of the date.
    pub literal: Option<String>,
}

/// What was read of a date.
#[derive(Drop)]
pub struct DateReading {
    pub date: Date,
    /// Whether the date has all that was to be read.
    pub is_whole: bool,
}

/// What was read of a part of a year.
#[derive(Drop)]
pub struct YearPartReading {
    pub part: Option<YearPart>,
    pub is_whole: bool,
}

impl Season {
    /// The season of this number: from 1 to 4, or from 21 to 24 as EDTF counts them.
    pub fn of_number(number: i64) -> Option<Season> {
        match number {
            1 | 21 => Some(Season::Spring),
            2 | 22 => Some(Season::Summer),
            3 | 23 => Some(Season::Autumn),
            4 | 24 => Some(Season::Winter),
            _ => None,
        }
    }

    /// The season of this English name, in any case.
    pub fn of_name(name: &str) -> Option<Season> {
        let names = [
            ("spring", Season::Spring),
            ("summer", Season::Summer),
            ("autumn", Season::Autumn),
            ("fall", Season::Autumn),
            ("winter", Season::Winter),
        ];
        for (known, season) in names {
            if name.eq_ignore_ascii_case(known) {
                return Some(season);
            }
        }
        None
    }
}

impl YearPart {
    /// The part that these numbers of a month and of a day stand for. A number is 0 where the month
    /// or the day is absent. A month from 13 to 16 or from 21 to 24 is a season.
    pub fn of_numbers(month: i64, day: i64) -> YearPartReading {
        if let Some(month) = Month::new(month) {
            return match Day::new(day) {
                Some(day) => YearPartReading {
                    part: Some(YearPart::Day(month, day)),
                    is_whole: true,
                },
                None => YearPartReading {
                    part: Some(YearPart::Month(month)),
                    is_whole: day == 0,
                },
            };
        }
        let season = match month {
            13..=16 => Season::of_number(month - 12),
            21..=24 => Season::of_number(month),
            _ => None,
        };
        YearPartReading {
            is_whole: day == 0 && (month == 0 || season.is_some()),
            part: season.map(YearPart::Season),
        }
    }
}

impl Date {
    /// The date that the text gives: in EDTF (levels 0 and 1, but for unspecified months and days),
    /// as numbers, or in English words. Any other text is the date's literal.
    ///
    /// # Errors
    /// Where memory is refused.
    pub fn of_text(alloc: Global, text: &str) -> Result<DateReading, AllocError> {
        if let Some(reading) = date_of_text(text) {
            return Ok(reading);
        }
        let date = Date {
            span: None,
            is_uncertain: false,
            literal: Some(String::from_str(alloc, text)?),
        };
        Ok(DateReading {
            date,
            is_whole: true,
        })
    }
}

//! Dates (CSL 1.0.2, "Date" and "Date-part").
use crate::formatting::{Affixes, Display, Formatting, TextCase};
use crate::variable::DateVariable;

/// The value of a date's `form`: which date of the locale is written.
#[derive(Clone, Copy, PartialEq, Eq)]
pub enum DateForm {
    Text,
    Numeric,
}

/// The value of `date-parts`: which parts of the locale's date are written.
#[derive(Clone, Copy, PartialEq, Eq)]
pub enum DateParts {
    YearMonthDay,
    YearMonth,
    Year,
}

/// How a day is written.
#[derive(Clone, Copy, PartialEq, Eq)]
pub enum DayForm {
    Numeric,
    NumericLeadingZeros,
    Ordinal,
}

/// How a month is written.
#[derive(Clone, Copy, PartialEq, Eq)]
pub enum MonthForm {
    Long,
    Short,
    Numeric,
    NumericLeadingZeros,
}

/// How a year is written.
#[derive(Clone, Copy, PartialEq, Eq)]
pub enum YearForm {
    Long,
    Short,
}

/// A part of a date, and its form. Without a form it is that of the locale's date, or else the
/// default: a numeric day, a long month, a long year.
#[derive(Clone, Copy, PartialEq, Eq)]
pub enum DatePartName {
    Day(Option<DayForm>),
    Month(Option<MonthForm>),
    Year(Option<YearForm>),
}

/// An element `date-part`.
#[derive(Drop)]
pub struct DatePart {
    pub name: DatePartName,
    /// What stands between two dates of a range that differ first in this part; an en dash where it
    /// is absent.
    pub range_delimiter: Option<String>,
    pub affixes: Affixes,
    pub formatting: Formatting,
    pub text_case: Option<TextCase>,
    pub strip_periods: bool,
}

/// Where the form of a date comes from.
#[derive(Drop)]
pub enum DateFormat {
    /// From the locale: these parts of its date of this form. The style's own parts say how the
    /// locale's are set.
    Localized {
        form: DateForm,
        parts: DateParts,
        settings: Vec<DatePart>,
    },
    /// From the style: these parts in this order.
    Own {
        parts: Vec<DatePart>,
        delimiter: String,
    },
}

/// An element `date`.
#[derive(Drop)]
pub struct Date {
    pub variable: DateVariable,
    pub format: DateFormat,
    pub affixes: Affixes,
    pub formatting: Formatting,
    pub display: Option<Display>,
    pub text_case: Option<TextCase>,
    /// Where its start tag begins in the file, in bytes from the start of its text.
    pub offset: usize,
}

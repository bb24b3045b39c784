//! Dates as texts that sort as the dates do (CSL 1.0.2, "Sorting").
use reference_values::date::{Date, DateSpan, PartialDate, YearPart};
use std::alloc::{AllocError, Global};

/// A date by so many of its parts: 1 for the year alone, 3 for year, month and day. Texts of
/// dates are in the order of the dates; a range has its last date after its first. Nothing is known
/// of a date that has only a literal.
///
/// # Errors
///
/// Where memory is refused.
pub fn sorted_date(alloc: Global, date: &Date, parts: usize) -> Result<String, AllocError> {
    let mut text = String::new(alloc);
    match &date.span {
        Some(DateSpan::On(on)) => push_date(alloc, &mut text, on, parts)?,
        Some(DateSpan::Since(on) | DateSpan::Until(on)) => {
            push_date(alloc, &mut text, on, parts)?;
        }
        Some(DateSpan::Between(first, last)) => {
            push_date(alloc, &mut text, first, parts)?;
            text.push_str(" ")?;
            push_date(alloc, &mut text, last, parts)?;
        }
        None => {}
    }
    Ok(text)
}

/// What is added to years, so that those before Christ come first.
const EPOCH: i64 = 10_000_000_000;

fn push_date(
    alloc: Global,
    text: &mut String,
    date: &PartialDate,
    parts: usize,
) -> Result<(), AllocError> {
    let year = i64::from(date.year) + EPOCH;
    text.push_str(format!(in alloc; "{year:011}")?.as_str())?;
    let (month, day) = numbers_of(&date.part);
    if parts > 1 {
        text.push_str(format!(in alloc; "{month:02}")?.as_str())?;
    }
    if parts > 2 {
        text.push_str(format!(in alloc; "{day:02}")?.as_str())?;
    }
    Ok(())
}

/// The month and the day, 0 where there is none. A season is no part of a date.
fn numbers_of(part: &Option<YearPart>) -> (u8, u8) {
    match part {
        Some(YearPart::Month(month)) => (month.number(), 0),
        Some(YearPart::Day(month, day)) => (month.number(), day.number()),
        Some(YearPart::Season(_) | YearPart::Named(_)) | None => (0, 0),
    }
}

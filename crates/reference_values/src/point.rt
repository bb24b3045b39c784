//! Dates as they stand alone or at an end of an interval.
use crate::date::{Date, DateReading, DateSpan, PartialDate};

/// A date, and how far it was read.
#[derive(Drop)]
pub(crate) struct Point {
    pub date: PartialDate,
    pub is_uncertain: bool,
    pub is_whole: bool,
}

fn reading(span: DateSpan, is_uncertain: bool, is_whole: bool) -> DateReading {
    DateReading {
        date: Date {
            span: Some(span),
            is_uncertain,
            literal: None,
        },
        is_whole,
    }
}

pub(crate) fn on(point: Point) -> DateReading {
    reading(DateSpan::On(point.date), point.is_uncertain, point.is_whole)
}

pub(crate) fn between(first: Point, last: Point) -> DateReading {
    reading(
        DateSpan::Between(first.date, last.date),
        first.is_uncertain || last.is_uncertain,
        first.is_whole && last.is_whole,
    )
}

pub(crate) fn since(first: Point) -> DateReading {
    reading(
        DateSpan::Since(first.date),
        first.is_uncertain,
        first.is_whole,
    )
}

pub(crate) fn until(last: Point) -> DateReading {
    reading(DateSpan::Until(last.date), last.is_uncertain, last.is_whole)
}

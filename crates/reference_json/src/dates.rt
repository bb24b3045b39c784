//! Dates of an item.
ghost use Rattle.serde_json.specs.Data.{array};
ghost use Rattle.serde_json.specs.View.{items_view, view};
ghost use Rattle.reference_json.specs.Faults.{Faults};

use crate::fault::{ReferencesError, Wanted};
use crate::place::Place;
use crate::reader::{Reader, refusal};
use crate::warning::WarningKind;
use reference_values::date::{Date, DateSpan, PartialDate, Season, YearPart};
use serde_json::Value;
use std::alloc::{AllocError, Global};

/// The keys of a date.
pub(crate) const DATE_KEYS: &[&str] = &["circa", "date-parts", "literal", "raw", "season"];

/// How many dates a range has.
const RANGE: usize = 2;

/// How many numbers a date has.
const NUMBERS: usize = 3;

// ---- numbers

impl Reader {
    /// The whole number that the value is; 0 of null and of an empty text.
    fn date_number(&self, place: &Place, value: &Value) -> Result<i64, ReferencesError>
        ensures { Faults result place.now (view value.now) }
    {
        let number = match value {
            Value::Null => Some(0),
            Value::Number(number) => number.as_i64(),
            Value::String(text) => whole_number(text.as_str()),
            _ => None,
        };
        match number {
            Some(number) => Ok(number),
            None => Err(refusal(self.alloc, place, value, Wanted::WholeNumber)),
        }
    }

    /// The number at this place of a list, from 0; 0 where the list is shorter.
    #[tactic(auto, using(crate::proofs::Parts::item_there))]
    fn number_of(
        &self,
        place: &Place,
        numbers: &[Value],
        index: usize,
    ) -> Result<i64, ReferencesError>
        ensures { Faults result place.now (array (items_view numbers.now)) }
    {
        match numbers.get(index) {
            Some(number) => self.date_number(&place.item(index), number),
            None => Ok(0),
        }
    }

    /// The date of a year, a month and a day; none where the year is 0.
    fn date_of_numbers(
        &mut self,
        place: &Place,
        numbers: &[Value],
    ) -> Result<Option<PartialDate>, ReferencesError>
        ensures { Faults result place.now (array (items_view numbers.now)) }
    {
        let year = self.number_of(place, numbers, 0)?;
        let month = self.number_of(place, numbers, 1)?;
        let day = self.number_of(place, numbers, 2)?;
        let reading = partial_date(year, month, day);
        if !reading.is_whole || numbers.len() > NUMBERS {
            self.warn(place, WarningKind::CutDate)?;
        }
        Ok(reading.date)
    }

    /// The date that the value is, a list of numbers.
    fn partial_date(
        &mut self,
        place: &Place,
        value: &Value,
    ) -> Result<Option<PartialDate>, ReferencesError>
        ensures { Faults result place.now (view value.now) }
    {
        match value {
            Value::Array(numbers) => self.date_of_numbers(place, numbers),
            _ => Err(refusal(self.alloc, place, value, Wanted::DateNumbers)),
        }
    }

    /// The dates of a range, or the one date.
    #[tactic(auto, using(crate::proofs::Parts::item_there))]
    fn span_of(
        &mut self,
        place: &Place,
        dates: &[Value],
    ) -> Result<Option<DateSpan>, ReferencesError>
        ensures { Faults result place.now (array (items_view dates.now)) }
    {
        if dates.len() > RANGE {
            self.warn(place, WarningKind::CutDate)?;
        }
        let first = match dates.get(0) {
            Some(date) => self.partial_date(&place.item(0), date)?,
            None => None,
        };
        let Some(second) = dates.get(1) else {
            return Ok(first.map(DateSpan::On));
        };
        let last = self.partial_date(&place.item(1), second)?;
        Ok(match (first, last) {
            (Some(first), Some(last)) => Some(DateSpan::Between(first, last)),
            (Some(first), None) => Some(DateSpan::Since(first)),
            (None, Some(last)) => Some(DateSpan::Until(last)),
            (None, None) => None,
        })
    }

    /// The span that the value gives, a list of one or two dates.
    fn date_parts(
        &mut self,
        place: &Place,
        value: &Value,
    ) -> Result<Option<DateSpan>, ReferencesError>
        ensures { Faults result place.now (view value.now) }
    {
        match value {
            Value::Null => Ok(None),
            Value::Array(dates) => self.span_of(place, dates),
            _ => Err(refusal(self.alloc, place, value, Wanted::DateParts)),
        }
    }
}

// ---- members

/// Adds a season to the first date of a span, if that is a year alone.
fn add_season(span: &mut DateSpan, season: YearPart) -> bool {
    let date = match span {
        DateSpan::On(date) | DateSpan::Since(date) | DateSpan::Until(date) => date,
        DateSpan::Between(first, _) => first,
    };
    let is_year = date.part.is_none();
    if is_year {
        date.part = Some(season);
    }
    is_year
}

/// The season that a text names: one of the four by its number or its English name, or any other by
/// its own.
fn season_of(text: String) -> YearPart {
    let number = text.as_str().parse::<i64>().ok();
    let season = match number {
        Some(number) => Season::of_number(number),
        None => Season::of_name(text.as_str()),
    };
    match season {
        Some(season) => YearPart::Season(season),
        None => YearPart::Named(text),
    }
}

/// The members of a date.
#[derive(Drop)]
struct DateMembers {
    span: Option<DateSpan>,
    raw: Option<String>,
    season: Option<String>,
    is_uncertain: bool,
    literal: Option<String>,
}

impl Reader {
    /// The date that the text gives; none of an empty one.
    pub(crate) fn date_of_text(
        &mut self,
        place: &Place,
        text: &str,
    ) -> Result<Option<Date>, AllocError> {
        if text.trim().is_empty() {
            return Ok(None);
        }
        let reading = Date::of_text(self.alloc, text)?;
        if !reading.is_whole {
            self.warn(place, WarningKind::CutDate)?;
        }
        Ok(Some(reading.date))
    }

    /// The date of a raw text or of a span. The raw text goes first.
    fn told_date(
        &mut self,
        place: &Place,
        span: Option<DateSpan>,
        raw: Option<String>,
    ) -> Result<Option<Date>, AllocError> {
        let told = match raw {
            Some(raw) => self.date_of_text(place, raw.as_str())?,
            None => None,
        };
        match (told, span) {
            (Some(date), None) => Ok(Some(date)),
            (Some(date), Some(_)) => {
                self.warn(place, WarningKind::CutDate)?;
                Ok(Some(date))
            }
            (None, Some(span)) => Ok(Some(Date {
                span: Some(span),
                is_uncertain: false,
                literal: None,
            })),
            (None, None) => Ok(None),
        }
    }

    /// The date that the members tell; none where they tell none.
    fn joined_date(
        &mut self,
        place: &Place,
        members: DateMembers,
    ) -> Result<Option<Date>, AllocError> {
        let DateMembers {
            span,
            raw,
            season,
            is_uncertain,
            literal,
        } = members;
        let told = self.told_date(place, span, raw)?;
        if told.is_none() && literal.is_none() {
            self.warn(place, WarningKind::EmptyDate)?;
            return Ok(None);
        }
        let mut date = told.unwrap_or(Date {
            span: None,
            is_uncertain: false,
            literal: None,
        });
        if let Some(season) = season {
            let is_kept = match &mut date.span {
                Some(span) => add_season(span, season_of(season)),
                None => false,
            };
            if !is_kept {
                self.warn(place, WarningKind::CutDate)?;
            }
        }
        date.is_uncertain = date.is_uncertain || is_uncertain;
        date.literal = literal.or(date.literal);
        Ok(Some(date))
    }

    fn date_members(
        &mut self,
        place: &Place,
        object: &Value,
    ) -> Result<DateMembers, ReferencesError>
        ensures { Faults result place.now (view object.now) }
    {
        let span = match object.get("date-parts") {
            Some(parts) => self.date_parts(&place.member("date-parts"), parts)?,
            None => None,
        };
        Ok(DateMembers {
            span,
            raw: self.text_at(place, object, "raw")?,
            season: self.text_at(place, object, "season")?,
            is_uncertain: self.flag_at(place, object, "circa")?.unwrap_or(false),
            literal: self.text_at(place, object, "literal")?,
        })
    }

    /// The date that the value gives, a text or an object; none of null.
    pub(crate) fn date(
        &mut self,
        place: &Place,
        value: &Value,
    ) -> Result<Option<Date>, ReferencesError>
        ensures { Faults result place.now (view value.now) }
    {
        match value {
            Value::Null => Ok(None),
            Value::String(text) => Ok(self.date_of_text(place, text.as_str())?),
            Value::Object(members) => {
                self.warn_of_date_keys(place, members)?;
                let members = self.date_members(place, value)?;
                Ok(self.joined_date(place, members)?)
            }
            _ => Err(refusal(self.alloc, place, value, Wanted::Date)),
        }
    }
}

/// The whole number that the text is, between spaces; 0 of an empty one.
fn whole_number(text: &str) -> Option<i64> {
    let text = text.trim();
    if text.is_empty() {
        Some(0)
    } else {
        text.parse::<i64>().ok()
    }
}

/// What was read of a date in numbers.
#[derive(Drop)]
struct NumbersReading {
    date: Option<PartialDate>,
    is_whole: bool,
}

/// The date of these numbers. A month and a day are 0 where they are absent.
fn partial_date(year: i64, month: i64, day: i64) -> NumbersReading {
    match i32::try_from(year) {
        Ok(year) if year != 0 => {
            let reading = YearPart::of_numbers(month, day);
            NumbersReading {
                date: Some(PartialDate {
                    year,
                    part: reading.part,
                }),
                is_whole: reading.is_whole,
            }
        }
        _ => NumbersReading {
            date: None,
            is_whole: year == 0 && month == 0 && day == 0,
        },
    }
}

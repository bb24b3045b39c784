//! Names and dates of items.
use crate::conversion::Conversion;
use reference_fields::dates::{DateReading, date_of};
use reference_fields::months::{is_month, is_number, is_season, month_number};
use reference_fields::names::names_of;
use reference_fields::tables::{ROLES, editor_variable};
use reference_items::item::{DateNumbers, ItemDate, ItemName, MemberValue};
use reference_latex::text::plain_of;
use std::alloc::{AllocError, Global};

/// The fields of editors beside the first, and those of their kinds.
const EDITORS: [(&str, &str); 3] = [
    ("editora", "editoratype"),
    ("editorb", "editorbtype"),
    ("editorc", "editorctype"),
];

impl<'e> Conversion<'e> {
    /// Puts the names of all roles.
    pub(crate) fn put_persons(&mut self) -> Result<(), AllocError> {
        for (field, variable) in ROLES {
            let names = self.names(field)?;
            self.add_names(variable, names)?;
        }
        self.put_editors()?;
        for (field, kind_field) in EDITORS {
            if self.whole.has(field) {
                self.put_other_editors(field, kind_field)?;
            }
        }
        Ok(())
    }

    fn put_editors(&mut self) -> Result<(), AllocError> {
        let kind = self.word("editortype")?;
        let names = self.names("editor")?;
        if kind.as_str() == "director" {
            return self.add_names("director", names);
        }
        if !matches!(kind.as_str(), "" | "editor") && !names.is_empty() {
            self.lose("editortype", "stands as an editor")?;
        }
        self.add_names("editor", names)
    }

    fn put_other_editors(&mut self, field: &str, kind_field: &str) -> Result<(), AllocError> {
        let kind = self.word(kind_field)?;
        if let Some(variable) = editor_variable(kind.as_str()) {
            let names = self.names(field)?;
            return self.add_names(variable, names);
        }
        self.uses(field);
        let kind = if kind.is_empty() {
            "editor"
        } else {
            kind.as_str()
        };
        let reason = format!(in self.alloc; "CSL has no place for more names of the kind {kind}")?;
        self.lose(field, reason.as_str())
    }

    /// Adds names to those of a variable.
    fn add_names(
        &mut self,
        variable: &'static str,
        names: Vec<ItemName>,
    ) -> Result<(), AllocError> {
        for member in self.item.members.iter_mut() {
            if member.name == variable {
                return extend_names(&mut member.value, names);
            }
        }
        self.item.put_names(variable, names)
    }

    /// The names of a field.
    fn names(&mut self, field: &str) -> Result<Vec<ItemName>, AllocError> {
        let source = self.source(&[field]);
        if source.is_empty() {
            return Ok(Vec::new(self.alloc));
        }
        let keeps_particles = keeps_particles(self.whole.value("options").unwrap_or(""));
        let reading = names_of(self.alloc, source, keeps_particles)?;
        for reason in &reading.lost {
            self.lose(field, reason.as_str())?;
        }
        Ok(reading.names)
    }
}

fn extend_names(value: &mut MemberValue, names: Vec<ItemName>) -> Result<(), AllocError> {
    if let MemberValue::Names(all) = value {
        for name in names {
            all.push(name)?;
        }
    }
    Ok(())
}

/// Whether the options of an entry say that particles stay with family names.
fn keeps_particles(options: &str) -> bool {
    options.split(',').any(|option| {
        let (name, value) = option.split_once('=').unwrap_or((option, "true"));
        name.trim().eq_ignore_ascii_case("useprefix") && value.trim().eq_ignore_ascii_case("true")
    })
}

// ---- dates

/// The fields of a date.
#[derive(Clone, Copy)]
struct DateFields {
    date: &'static str,
    year: &'static str,
    month: &'static str,
    day: &'static str,
    end_year: &'static str,
    end_month: &'static str,
    end_day: &'static str,
}

const ISSUED: DateFields = DateFields {
    date: "date",
    year: "year",
    month: "month",
    day: "day",
    end_year: "endyear",
    end_month: "endmonth",
    end_day: "endday",
};

const ACCESSED: DateFields = DateFields {
    date: "urldate",
    year: "urlyear",
    month: "urlmonth",
    day: "urlday",
    end_year: "urlendyear",
    end_month: "urlendmonth",
    end_day: "urlendday",
};

const EVENT: DateFields = DateFields {
    date: "eventdate",
    year: "eventyear",
    month: "eventmonth",
    day: "eventday",
    end_year: "eventendyear",
    end_month: "eventendmonth",
    end_day: "eventendday",
};

const ORIGINAL: DateFields = DateFields {
    date: "origdate",
    year: "origyear",
    month: "origmonth",
    day: "origday",
    end_year: "origendyear",
    end_month: "origendmonth",
    end_day: "origendday",
};

/// A date that says nothing.
fn no_date(alloc: Global) -> ItemDate {
    ItemDate {
        points: Vec::new(alloc),
        season: 0,
        is_circa: false,
        literal: String::new(alloc),
    }
}

/// The year of one to four digits that a text is, with a sign or without; it isn't 0.
fn year_of(text: &str) -> Option<i32> {
    let digits = text.strip_prefix('-').unwrap_or(text);
    if digits.len() > 4 || !is_number(digits) {
        return None;
    }
    text.parse::<i32>().ok().filter(|year| *year != 0)
}

impl<'e> Conversion<'e> {
    /// Puts the dates.
    pub(crate) fn put_dates(&mut self) -> Result<(), AllocError> {
        self.put_date("issued", ISSUED)?;
        self.put_date("accessed", ACCESSED)?;
        if !self
            .item
            .members
            .iter()
            .any(|member| member.name == "accessed")
        {
            let date = self.date_in(&["lastchecked", "lastaccessed", "accessed"])?;
            self.item.put_date("accessed", date)?;
        }
        self.put_date("event-date", EVENT)?;
        self.put_date("original-date", ORIGINAL)
    }

    fn put_date(&mut self, variable: &'static str, fields: DateFields) -> Result<(), AllocError> {
        let date = self.date(fields)?;
        self.item.put_date(variable, date)
    }

    /// A date, of its own field or of those for year, month and day.
    fn date(&mut self, fields: DateFields) -> Result<ItemDate, AllocError> {
        if self.whole.has(fields.date) {
            self.uses(fields.year);
            self.uses(fields.month);
            self.uses(fields.day);
            return self.date_in(&[fields.date]);
        }
        let year = self.plain(&[fields.year])?;
        let Some(year) = year_of(year.as_str()) else {
            return self.date_in(&[fields.year]);
        };
        let first = self.numbers(year, fields.month, fields.day)?;
        let end_year = year_of(self.source(&[fields.end_year]));
        let last = match end_year {
            Some(year) => Some(self.numbers(year, fields.end_month, fields.end_day)?),
            None => None,
        };
        date_of_numbers(self.alloc, first, last)
    }

    /// The date that the first of some fields says that is there.
    fn date_in(&mut self, names: &[&str]) -> Result<ItemDate, AllocError> {
        let Some(field) = self.first_of(names) else {
            return Ok(no_date(self.alloc));
        };
        let DateReading { date, lost } = date_of(
            self.alloc,
            without_braces(self.alloc, field.value)?.as_str(),
        )?;
        for (is_lost, reason) in lost.reasons() {
            if is_lost {
                self.lose(field.name, reason)?;
            }
        }
        let mut date = date;
        if lost.form {
            date.literal = plain_of(self.alloc, field.value)?;
        }
        Ok(date)
    }

    /// The year with the month and the day of fields.
    fn numbers(
        &mut self,
        year: i32,
        month_field: &str,
        day_field: &str,
    ) -> Result<DateNumbers, AllocError> {
        let text = self.plain(&[month_field])?;
        let month = month_number(text.as_str()).unwrap_or(0);
        if !is_month(month) && !is_season(month) {
            if !text.is_empty() {
                self.lose(month_field, "no month, and no season")?;
            }
            return Ok(DateNumbers {
                year,
                month: 0,
                day: 0,
            });
        }
        let day = day_number(self.source(&[day_field]));
        Ok(DateNumbers {
            year,
            month,
            day: if is_month(month) { day } else { 0 },
        })
    }
}

/// The number of a day that a text is; 0 where it is none.
fn day_number(text: &str) -> u8 {
    if text.len() > 2 || !is_number(text) {
        return 0;
    }
    match text.parse::<u8>() {
        Ok(day) if day <= 31 => day,
        _ => 0,
    }
}

/// The text without braces.
fn without_braces(alloc: Global, text: &str) -> Result<String, AllocError> {
    let mut out = String::new(alloc);
    for c in text.chars() {
        if !matches!(c, '{' | '}') {
            out.push(c)?;
        }
    }
    Ok(out)
}

/// The date of these numbers. A season that stands alone has a member of its own.
fn date_of_numbers(
    alloc: Global,
    first: DateNumbers,
    last: Option<DateNumbers>,
) -> Result<ItemDate, AllocError> {
    let mut date = no_date(alloc);
    let mut first = first;
    if last.is_none() && is_season(first.month) {
        date.season = first.month.saturating_sub(20);
        first.month = 0;
    }
    date.points.push(first)?;
    if let Some(last) = last {
        date.points.push(last)?;
    }
    Ok(date)
}

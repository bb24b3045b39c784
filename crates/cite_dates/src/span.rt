//! Where the dates of a range differ.
use crate::layout::{PartLayout, Unit};
use reference_values::date::{Day, Month, PartialDate, YearPart};

/// The parts that both dates of a range write: those before `begin` and from `end` on they share.
#[derive(Clone, Copy)]
pub(crate) struct Differing<'s> {
    pub begin: usize,
    pub end: usize,
    /// What stands between the two dates.
    pub delimiter: &'s str,
}

/// Where two dates differ in this layout: from the first to the last of its parts that are no
/// greater than the greatest in which they do. `None` where no part that both have differs.
pub(crate) fn parted<'s>(
    parts: &[PartLayout<'s>],
    first: &PartialDate,
    last: &PartialDate,
) -> Option<Differing<'s>> {
    let greatest = greatest_differing(parts, first, last)?;
    let mut begin = parts.len();
    let mut end = 0;
    for (place, part) in parts.iter().enumerate() {
        if is_within(part.form.unit(), greatest.form.unit()) {
            begin = begin.min(place);
            end = place.saturating_add(1);
        }
    }
    Some(Differing {
        begin,
        end,
        delimiter: greatest.range_delimiter,
    })
}

/// The greatest part in which two dates differ.
fn greatest_differing<'s>(
    parts: &[PartLayout<'s>],
    first: &PartialDate,
    last: &PartialDate,
) -> Option<PartLayout<'s>> {
    for unit in [Unit::Year, Unit::Month, Unit::Day] {
        if differs(unit, first, last) {
            if let Some(part) = part_of(parts, unit) {
                return Some(part);
            }
        }
    }
    None
}

/// The part of a layout that is for this unit.
pub(crate) fn part_of<'s>(parts: &[PartLayout<'s>], unit: Unit) -> Option<PartLayout<'s>> {
    for part in parts {
        if part.form.unit() == unit {
            return Some(*part);
        }
    }
    None
}

/// Whether a part is as small as another one.
fn is_within(unit: Unit, greatest: Unit) -> bool {
    match greatest {
        Unit::Year => true,
        Unit::Month => unit != Unit::Year,
        Unit::Day => unit == Unit::Day,
    }
}

fn differs(unit: Unit, first: &PartialDate, last: &PartialDate) -> bool {
    match unit {
        Unit::Year => first.year != last.year,
        Unit::Month => months_differ(&first.part, &last.part),
        Unit::Day => match (day_of(&first.part), day_of(&last.part)) {
            (Some(first), Some(last)) => first != last,
            _ => false,
        },
    }
}

fn months_differ(first: &Option<YearPart>, last: &Option<YearPart>) -> bool {
    match (first, last) {
        (Some(YearPart::Season(first)), Some(YearPart::Season(last))) => first != last,
        (Some(YearPart::Named(first)), Some(YearPart::Named(last))) => first != last,
        (None, _) | (_, None) => false,
        _ => month_of(first) != month_of(last),
    }
}

fn month_of(part: &Option<YearPart>) -> Option<Month> {
    match part {
        Some(YearPart::Month(month) | YearPart::Day(month, _)) => Some(*month),
        _ => None,
    }
}

fn day_of(part: &Option<YearPart>) -> Option<Day> {
    match part {
        Some(YearPart::Day(_, day)) => Some(*day),
        _ => None,
    }
}

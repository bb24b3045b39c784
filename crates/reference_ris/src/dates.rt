//! Dates of RIS.
use reference_items::item::{DateNumbers, ItemDate};
use std::alloc::{AllocError, Global};

const SEASONS: [(&str, u8); 5] = [
    ("spring", 1),
    ("summer", 2),
    ("autumn", 3),
    ("fall", 3),
    ("winter", 4),
];

/// The number of one or two digits that a text is, of at most this; 0 where it is none.
fn number_of(text: &str, most: u8) -> u8 {
    match text.trim().parse::<u8>() {
        Ok(number) if number <= most => number,
        _ => 0,
    }
}

/// The date that a text says, as `1999`, `1999/05/03` or `1999///Spring`, also with hyphens. What is
/// no such date stays as a text.
///
/// # Errors
/// Where memory is refused.
pub(crate) fn date_of(alloc: Global, text: &str) -> Result<ItemDate, AllocError> {
    let mut date = ItemDate {
        points: Vec::new(alloc),
        season: 0,
        is_circa: false,
        literal: String::new(alloc),
    };
    let mut parts = text.split(['/', '-']);
    let year = parts.next().unwrap_or("").trim();
    let month = number_of(parts.next().unwrap_or(""), 12);
    let day = number_of(parts.next().unwrap_or(""), 31);
    let other = parts.next().unwrap_or("").trim();
    match year.parse::<i32>() {
        Ok(year) if year != 0 => {
            date.season = if month == 0 { season_of(other) } else { 0 };
            date.points.push(DateNumbers {
                year,
                month,
                day: if month == 0 { 0 } else { day },
            })?;
        }
        _ => date.literal.push_str(text.trim())?,
    }
    Ok(date)
}

/// The number of a season; 0 where the name is that of none.
fn season_of(name: &str) -> u8 {
    let season = SEASONS
        .iter()
        .find(|season| name.eq_ignore_ascii_case(season.0));
    season.map_or(0, |season| season.1)
}

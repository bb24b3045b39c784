//! Months, and days of years.

const MONTHS: [&str; 12] = [
    "january",
    "february",
    "march",
    "april",
    "may",
    "june",
    "july",
    "august",
    "september",
    "october",
    "november",
    "december",
];

/// The seasons, by the numbers that EDTF has for them.
const SEASONS: [(&str, u8); 5] = [
    ("spring", 21),
    ("summer", 22),
    ("autumn", 23),
    ("fall", 23),
    ("winter", 24),
];

/// The number of a month, or of a season as EDTF has it, that a number or an English name says.
pub fn month_number(text: &str) -> Option<u8> {
    let word = text.trim().trim_end_matches('.');
    if is_number(word) && word.len() <= 2 {
        return word.parse::<u8>().ok().filter(|number| *number != 0);
    }
    let season = SEASONS
        .iter()
        .find(|season| word.eq_ignore_ascii_case(season.0));
    if let Some((_, number)) = season {
        return Some(*number);
    }
    if word.len() < 3 {
        return None;
    }
    let place = MONTHS.iter().position(|name| begins(name, word))?;
    u8::try_from(place.saturating_add(1)).ok()
}

/// Whether the name, in small letters, begins with the word in any case.
fn begins(name: &str, word: &str) -> bool {
    name.get(..word.len())
        .is_some_and(|begin| begin.eq_ignore_ascii_case(word))
}

/// Whether a text is digits alone.
pub fn is_number(text: &str) -> bool {
    !text.is_empty() && text.bytes().all(|byte| byte.is_ascii_digit())
}

/// Whether the number is that of a season.
pub fn is_season(month: u8) -> bool {
    matches!(month, 21..=24)
}

/// Whether the number is that of a month.
pub fn is_month(month: u8) -> bool {
    matches!(month, 1..=12)
}

/// The most days of a month in any year.
pub fn most_days(month: u8) -> u8 {
    match month {
        2 => 29,
        4 | 6 | 9 | 11 => 30,
        _ => 31,
    }
}

/// The last day of a month.
pub fn last_day(year: i32, month: u8) -> u8 {
    let is_leap = year % 4 == 0 && (year % 100 != 0 || year % 400 == 0);
    if month == 2 && !is_leap {
        28
    } else {
        most_days(month)
    }
}

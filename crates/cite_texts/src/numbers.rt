//! The texts of number variables (CSL 1.0.2, cs:number and is-numeric).
ghost use Rattle.std.specs.Prelude.{◌<◌};

use std::alloc::{AllocError, Global};

/// What stands between two numbers.
#[derive(Clone, Copy, PartialEq, Eq, Debug)]
pub enum NumberDelimiter {
    /// A hyphen, or an en dash.
    Hyphen,
    Comma,
    Ampersand,
}

impl NumberDelimiter {
    /// The delimiter with the white space that CSL wants around it.
    pub fn text(self) -> &'static str {
        match self {
            NumberDelimiter::Hyphen => "-",
            NumberDelimiter::Comma => ", ",
            NumberDelimiter::Ampersand => " & ",
        }
    }

    fn of_char(c: char) -> Option<NumberDelimiter> {
        match c {
            '-' | '–' => Some(NumberDelimiter::Hyphen),
            ',' => Some(NumberDelimiter::Comma),
            '&' => Some(NumberDelimiter::Ampersand),
            _ => None,
        }
    }
}

/// A number, maybe with letters before or behind it.
#[derive(Clone, Copy, PartialEq, Eq, Debug)]
pub struct Number<'a> {
    pub text: &'a str,
    /// Its value, where it has no letters; `None` also where it is 2^32 or more, or has a fraction.
    pub value: Option<u32>,
}

/// A number of a text, and the delimiter behind it: none behind the last.
#[derive(Clone, Copy, PartialEq, Eq, Debug)]
pub struct NumberPart<'a> {
    pub number: Number<'a>,
    pub delimiter: Option<NumberDelimiter>,
}

/// Whether a text consists of numbers alone, with hyphens, commas or ampersands between them.
/// Numbers may have letters before and behind them, as in `2nd` and `L2d`.
pub fn is_numeric(text: &str) -> bool {
    text.split(|c| NumberDelimiter::of_char(c).is_some())
        .all(|part| is_number(part.trim()))
}

/// The numbers of a text in their order; `None` where it is not numeric.
///
/// # Errors
///
/// Where memory is refused.
pub fn number_parts(alloc: Global, text: &str) -> Result<Option<Vec<NumberPart<'_>>>, AllocError> {
    if !is_numeric(text) {
        return Ok(None);
    }
    let mut parts = Vec::new(alloc);
    for part in text.split_inclusive(|c| NumberDelimiter::of_char(c).is_some()) {
        parts.push(part_of(part))?;
    }
    Ok(Some(parts))
}

/// A number, and the delimiter that its text ends in.
fn part_of(text: &str) -> NumberPart<'_> {
    let delimiter = text.chars().next_back().and_then(NumberDelimiter::of_char);
    let number = text
        .trim_end_matches(|c| NumberDelimiter::of_char(c).is_some())
        .trim();
    NumberPart {
        number: Number {
            text: number,
            value: value_of(number),
        },
        delimiter,
    }
}

fn value_of(number: &str) -> Option<u32> {
    if number.bytes().all(|byte| byte.is_ascii_digit()) {
        number.parse().ok()
    } else {
        None
    }
}

/// Whether a text is letters, digits with maybe a fraction, and letters.
fn is_number(text: &str) -> bool {
    let behind_prefix = text.trim_start_matches(|c: char| c.is_alphabetic());
    let suffix = behind_prefix.trim_start_matches(|c: char| c.is_ascii_digit() || c == '.');
    behind_prefix.starts_with(|c: char| c.is_ascii_digit())
        && suffix.chars().all(|c| c.is_alphabetic())
}

const ROMAN: &[(u32, &str)] = &[
    (1000, "m"),
    (900, "cm"),
    (500, "d"),
    (400, "cd"),
    (100, "c"),
    (90, "xc"),
    (50, "l"),
    (40, "xl"),
    (10, "x"),
    (9, "ix"),
    (5, "v"),
    (4, "iv"),
    (1, "i"),
];

/// The least number that has no Roman numeral.
const NO_ROMAN: u32 = 4000;

/// A number as a Roman numeral in lower case (CSL 1.0.2, the form `roman`); as digits where it has
/// none, which are 0 and those from 4000 on.
///
/// # Errors
///
/// Where memory is refused.
pub fn roman(alloc: Global, number: u32) -> Result<String, AllocError> {
    if number == 0 || number >= NO_ROMAN {
        return format!(in alloc; "{number}");
    }
    let mut out = String::new(alloc);
    let mut left = number;
    for (value, sign) in ROMAN {
        for _ in 0..left.checked_div(*value).unwrap_or(0) {
            out.push_str(sign)?;
        }
        left = left.checked_rem(*value).unwrap_or(0);
    }
    Ok(out)
}

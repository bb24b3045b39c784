//! Years, and the letters that disambiguate entries of one year (CSL 1.0.2, AD and BC; year-suffix
//! disambiguation).
ghost use Rattle.std.specs.Prelude.{◌≡◌, ◌++◌, IsOk, OnOk, IfOk, string_bytes};
ghost use Rattle.std.specs.Fmt.{WritesInCalls};
ghost use Rattle.driver_lookup.specs.Years.{year_text};
ghost use Rattle.driver_lookup.specs.SuffixLetters.{suffix_letters};

use csl_base::text::Text;
use std::alloc::{AllocError, Global};
use std::fmt;

/// Writes a year: in short the last two digits of one from 1000 on; else its digits, and behind
/// those of the years 1 to 999 the text `ad`. The year 0 is the first before Christ and is written
/// as 1, the year -1 as 2, and so on, with the text `bc` behind. It takes no memory of its own, and
/// fails only where the writer does, after some of the text.
pub fn write_year<W: fmt::Write>(
    year: i32,
    short: bool,
    w: &mut W,
    ad: &str,
    bc: &str,
) -> fmt::Result
    ensures { IsOk result
        → WritesInCalls W.write_str_gives w.old (year_text year short ad.now bc.now) w.new }
{
    let distance = u64::from(year.unsigned_abs());
    if year <= 0 {
        write!(w, "{}{bc}", distance + 1)
    } else if short && year >= 1000 {
        let last = distance % 100;
        write!(w, "{}{}", last / 10, last % 10)
    } else if year < 1000 {
        write!(w, "{distance}{ad}")
    } else {
        write!(w, "{distance}")
    }
}

/// A year as `write_year` writes it, as a text of its own.
///
/// Fails where memory is refused.
pub fn year_in_words(
    alloc: Global,
    year: i32,
    short: bool,
    ad: &str,
    bc: &str,
) -> Result<Text, AllocError>
    ensures { IfOk result (λ text. text ≡ year_text year short ad.now bc.now) }
{
    let mut text = Text::copied(alloc, "")?;
    match write_year(year, short, &mut text, ad, bc) {
        Ok(()) => Ok(text),
        Err(_) => Err(AllocError),
    }
}

/// The letters of a suffix: 0 is `a`, 25 is `z`, 26 is `aa`.
///
/// Fails where memory is refused.
pub fn letters_of_suffix(alloc: Global, suffix: usize) -> Result<String, AllocError>
    ensures { IfOk result (λ text. string_bytes text ≡ suffix_letters suffix) }
{
    let mut text = String::new(alloc);
    push_letters(&mut text, suffix)?;
    Ok(text)
}

fn push_letters(text: &mut String, suffix: usize) -> Result<(), AllocError>
    ensures { OnOk result (string_bytes text.new ≡ string_bytes text.old ++ suffix_letters suffix) }
{
    if suffix >= 26 {
        push_letters(text, suffix / 26 - 1)?;
    }
    text.push(char::from(b'a' + (suffix % 26) as u8))?;
    Ok(())
}

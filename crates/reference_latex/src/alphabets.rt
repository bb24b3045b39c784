//! Alphabets of formulas.
use std::alloc::{AllocError, Global};

/// An alphabet that has capitals of its own.
#[derive(Clone, Copy)]
pub(crate) enum Alphabet {
    DoubleStruck,
    Script,
    BlackLetter,
}

/// The capitals from A to Z.
fn capitals(alphabet: Alphabet) -> &'static str {
    match alphabet {
        Alphabet::DoubleStruck => "𝔸𝔹ℂ𝔻𝔼𝔽𝔾ℍ𝕀𝕁𝕂𝕃𝕄ℕ𝕆ℙℚℝ𝕊𝕋𝕌𝕍𝕎𝕏𝕐ℤ",
        Alphabet::Script => "𝒜ℬ𝒞𝒟ℰℱ𝒢ℋℐ𝒥𝒦ℒℳ𝒩𝒪𝒫𝒬ℛ𝒮𝒯𝒰𝒱𝒲𝒳𝒴𝒵",
        Alphabet::BlackLetter => "𝔄𝔅ℭ𝔇𝔈𝔉𝔊ℌℑ𝔍𝔎𝔏𝔐𝔑𝔒𝔓𝔔ℜ𝔖𝔗𝔘𝔙𝔚𝔛𝔜ℨ",
    }
}

/// The text with its capitals in an alphabet.
///
/// # Errors
/// Where memory is refused.
pub(crate) fn in_alphabet(
    alloc: Global,
    text: &str,
    alphabet: Alphabet,
) -> Result<String, AllocError> {
    let mut out = String::new(alloc);
    for c in text.chars() {
        out.push(capital_of(c, alphabet))?;
    }
    Ok(out)
}

/// The capital of an alphabet; any other character as it is.
fn capital_of(c: char, alphabet: Alphabet) -> char {
    let place = ('A'..='Z').position(|capital| capital == c);
    match place {
        Some(place) => capitals(alphabet).chars().nth(place).unwrap_or(c),
        None => c,
    }
}

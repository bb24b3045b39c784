//! Letters of one or more signs, and how they are sorted.
ghost use Rattle.std.specs.Prelude.{◌≡◌, ◌<◌, ◌≤◌, IfSome, All, Contains};
ghost use Rattle.cite_collation.specs.Letters.{taken, taken_by};

use std::alloc::{AllocError, Global};

/// This after a letter is the letter that follows it in the alphabet of a language: it sorts after
/// all that can follow the letter in a text.
pub const NEXT: char = '\u{e000}';

/// The same for a letter that follows another one in all languages. It sorts after the letters of
/// one language.
pub const NEXT_OF_ALL: char = '\u{e001}';

/// A letter of an alphabet: its signs, small and composed, and the text by which it is sorted. That
/// text is the letter before it in the alphabet, `NEXT`, and `a` for the first letter there, `b`
/// for the second. The sign of a variant comes last (`is_variant`).
#[derive(Clone, Copy)]
pub struct OwnLetter(pub &'static str, pub &'static str);

/// Whether a sign makes a variant of the letter before it: `\u{81}` the first one, `\u{82}` the
/// next. A variant differs from its letter only as an accent does, as `ä` from `æ` in Danish.
pub fn is_variant(c: char) -> bool {
    matches!(c, '\u{81}'..='\u{84}')
}

/// A text in small letters, with each of these letters replaced by the text by which it is sorted.
/// Where two letters begin at one place, as `dz` and `dzs`, the longer one is taken.
///
/// # Errors
///
/// Where memory is refused.
pub fn with_sorted_letters(
    alloc: Global,
    text: &str,
    letters: &[OwnLetter],
) -> Result<String, AllocError> {
    let mut sorted = String::new(alloc);
    let mut end = 0;
    for (start, c) in text.char_indices() {
        if start < end {
            continue;
        }
        match longest_letter(letters, text.get(start..).unwrap_or("")) {
            Some(letter) => {
                sorted.push_str(letter.1)?;
                end = start.saturating_add(letter.0.len());
            }
            None => sorted.push(c)?,
        }
    }
    Ok(sorted)
}

/// The longest of these letters that a text begins with.
fn longest_letter(letters: &[OwnLetter], text: &str) -> Option<OwnLetter>
    ensures found { IfSome result (λ letter. 0 < taken text.now letter) }
    ensures among { IfSome result (λ letter. Contains letters.now letter) }
    ensures longest { All (λ other. taken text.now other ≤ taken_by text.now result) letters.now }
{
    let mut longest = None;
    let mut most = 0;
    for letter in letters {
        let length = length_at_start(*letter, text);
        if most < length {
            longest = Some(*letter);
            most = length;
        }
    }
    longest
}

/// How many bytes the signs of a letter have, where a text begins with them; none elsewhere.
fn length_at_start(letter: OwnLetter, text: &str) -> usize
    ensures { result ≡ taken text.now letter }
{
    if text.as_bytes().starts_with(letter.0.as_bytes()) {
        letter.0.len()
    } else {
        0
    }
}

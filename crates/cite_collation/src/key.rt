//! The keys by which texts are compared.
use crate::alphabets::Alphabet;
use crate::letters::{NEXT, NEXT_OF_ALL, is_variant, with_sorted_letters};
use crate::tables::LETTERS_OF_ALL;
use caseless::default_case_fold_str;
use std::alloc::{AllocError, Global};
use unicode_normalization::char::is_combining_mark;
use unicode_normalization::{to_nfc, to_nfd, to_nfkd};

/// What ends a name of a variable: names are compared one by one, so it is before a space.
pub const SEPARATOR: char = '\u{2}';

/// What stands between the names that a macro writes (`cite_names::rules::SORT_DELIMITER`).
const BETWEEN_NAMES: char = '\u{1}';

/// What that is compared as: after a space, so that what the macro writes after a name sorts before
/// a second name, and before letters and digits.
const AFTER_SPACE: char = '!';

/// A text, as it is compared: by its letters, and where these are the same by accents, and then by
/// case.
#[derive(Clone, PartialEq, Eq, PartialOrd, Ord, Drop)]
pub struct CollationKey {
    letters: String,
    accents: String,
    case: String,
}

impl CollationKey {
    /// The key of a text in a language of this alphabet.
    ///
    /// # Errors
    ///
    /// Where memory is refused.
    pub fn of_text(
        alloc: Global,
        text: &str,
        alphabet: Alphabet,
    ) -> Result<CollationKey, AllocError> {
        if text.is_ascii() && !alphabet.has_dotless_i {
            return CollationKey::of_ascii(alloc, text, alphabet);
        }
        let decomposed = to_nfd(alloc, text)?;
        let small = small_letters(alloc, decomposed.as_str(), alphabet)?;
        let own = with_sorted_letters(alloc, small.as_str(), alphabet.letters)?;
        let letters = with_sorted_letters(alloc, own.as_str(), LETTERS_OF_ALL)?;
        let plain = to_nfkd(alloc, letters.as_str())?;
        CollationKey::of_letters(alloc, plain.as_str(), decomposed.as_str(), alphabet)
    }

    /// The same of a text of ASCII. No table of Unicode is needed: nothing in it is decomposed, and
    /// only the case of letters is folded.
    fn of_ascii(alloc: Global, text: &str, alphabet: Alphabet) -> Result<CollationKey, AllocError> {
        let small = text.to_ascii_lowercase(alloc)?;
        let letters = with_sorted_letters(alloc, small.as_str(), alphabet.letters)?;
        CollationKey::of_letters(alloc, letters.as_str(), text, alphabet)
    }

    /// The key of a text in small letters as they are sorted, with the case that it has here.
    fn of_letters(
        alloc: Global,
        letters: &str,
        cased: &str,
        alphabet: Alphabet,
    ) -> Result<CollationKey, AllocError> {
        let mut key = CollationKey {
            letters: String::new(alloc),
            accents: String::new(alloc),
            case: String::new(alloc),
        };
        for c in letters.chars() {
            key.push(c)?;
        }
        for c in cased.chars() {
            if c.is_alphabetic() {
                let is_later = c.is_uppercase() != alphabet.has_capitals_first;
                key.case.push(if is_later { '1' } else { '0' })?;
            }
        }
        Ok(key)
    }

    /// Adds a letter or a digit without an accent.
    fn push_letter(&mut self, c: char) -> Result<(), AllocError> {
        self.letters.push(c)?;
        self.accents.push(' ')
    }

    /// Adds a character of a decomposed text in small letters.
    fn push(&mut self, c: char) -> Result<(), AllocError> {
        if c == SEPARATOR || c == NEXT || c == NEXT_OF_ALL {
            return self.letters.push(c);
        }
        if c == BETWEEN_NAMES {
            return self.letters.push(AFTER_SPACE);
        }
        if c.is_whitespace() {
            let is_doubled = self.letters.as_str().ends_with(' ');
            if self.letters.is_empty() || is_doubled {
                return Ok(());
            }
            return self.letters.push(' ');
        }
        if is_combining_mark(c) || is_variant(c) {
            return self.accents.push(c);
        }
        if is_mark(c) || !c.is_alphanumeric() {
            return Ok(());
        }
        match plain_letters(c) {
            Some(letters) => {
                self.letters.push_str(letters)?;
                self.accents.push(c)
            }
            None => self.push_letter(c),
        }
    }
}

/// A decomposed text in small letters, composed.
fn small_letters(
    alloc: Global,
    decomposed: &str,
    alphabet: Alphabet,
) -> Result<String, AllocError> {
    if !alphabet.has_dotless_i {
        let composed = to_nfc(alloc, decomposed)?;
        return default_case_fold_str(alloc, composed.as_str());
    }
    let dotted = decomposed.replace(alloc, "I\u{307}", "i")?;
    let small = dotted.as_str().replace(alloc, 'I', "ı")?;
    let composed = to_nfc(alloc, small.as_str())?;
    default_case_fold_str(alloc, composed.as_str())
}

/// Whether a letter stands for a mark of a transliteration, as the prime or the okina, which is
/// ignored as punctuation is.
fn is_mark(c: char) -> bool {
    matches!(c, '\u{2b9}'..='\u{2bf}')
}

/// The letters as which a letter is sorted that has no decomposition.
fn plain_letters(c: char) -> Option<&'static str> {
    match c {
        'æ' => Some("ae"),
        'œ' => Some("oe"),
        'ø' => Some("o"),
        'đ' | 'ð' => Some("d"),
        'ħ' => Some("h"),
        'ı' => Some("i"),
        'ł' => Some("l"),
        'þ' => Some("th"),
        'ŧ' => Some("t"),
        _ => None,
    }
}

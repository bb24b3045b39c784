//! Alphabets of languages, as in the collations of Unicode's CLDR.
use crate::letters::OwnLetter;
use crate::tables::LANGUAGES;

/// How a language sorts letters.
#[derive(Clone, Copy)]
pub struct Alphabet {
    /// The letters that it sorts otherwise than Unicode's root collation does.
    pub letters: &'static [OwnLetter],
    /// Whether `I` is the capital of `ı`, and `İ` that of `i`.
    pub has_dotless_i: bool,
    /// Whether capitals precede small letters, where texts differ in case alone.
    pub has_capitals_first: bool,
}

impl Alphabet {
    /// The alphabet of the language of a tag, as `sv-SE` or `sv_se`; that of Unicode's root
    /// collation for other languages, as German.
    pub fn of_tag(tag: &str) -> Alphabet {
        let language = primary_language(tag);
        for (known, letters) in LANGUAGES {
            if known.eq_ignore_ascii_case(language) {
                return Alphabet {
                    letters: *letters,
                    has_dotless_i: letters.iter().any(|letter| letter.0 == "ı"),
                    has_capitals_first: *known == "da",
                };
            }
        }
        Alphabet {
            letters: &[],
            has_dotless_i: false,
            has_capitals_first: false,
        }
    }
}

/// What a tag begins with: `sv` of `sv-SE`.
fn primary_language(tag: &str) -> &str {
    tag.trim_start()
        .split(|c: char| !c.is_ascii_alphanumeric())
        .next()
        .unwrap_or("")
}

//! Scripts whose names are written with spaces.

/// The ranges of letters of such scripts: Latin, Greek, Cyrillic, Hebrew, Arabic and Thai.
const SPACED: &[(char, char)] = &[
    ('0', '9'),
    ('A', 'Z'),
    ('a', 'z'),
    ('\u{aa}', '\u{2af}'),
    ('\u{370}', '\u{52f}'),
    ('\u{531}', '\u{587}'),
    ('\u{590}', '\u{5ff}'),
    ('\u{600}', '\u{6ff}'),
    ('\u{900}', '\u{dff}'),
    ('\u{e01}', '\u{e5b}'),
    ('\u{10a0}', '\u{10ff}'),
    ('\u{1e00}', '\u{1fff}'),
];

/// Whether some letter of the text is of a script whose names are written with spaces.
pub fn is_spaced(text: &str) -> bool {
    text.chars().any(|c| is_of_spaced(c))
}

fn is_of_spaced(c: char) -> bool {
    for (first, last) in SPACED {
        if *first <= c && c <= *last {
            return true;
        }
    }
    false
}

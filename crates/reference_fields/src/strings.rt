//! The strings of a file.
use std::alloc::{AllocError, Global};
use std::collections::BTreeMap;

/// How many bytes a string may have. Strings of strings double at each step.
pub const LONGEST_STRING: usize = 100_000;

/// How many bytes of all strings come into entries.
const MOST_OF_STRINGS: usize = 10_000_000;

/// The strings that every file has.
const MONTHS: [(&str, &str); 12] = [
    ("jan", "January"),
    ("feb", "February"),
    ("mar", "March"),
    ("apr", "April"),
    ("may", "May"),
    ("jun", "June"),
    ("jul", "July"),
    ("aug", "August"),
    ("sep", "September"),
    ("oct", "October"),
    ("nov", "November"),
    ("dec", "December"),
];

/// The strings of a file by their names, in letters of any case.
#[derive(Drop)]
pub struct Strings {
    alloc: Global,
    texts: BTreeMap<String, String>,
    /// How many bytes may still come into entries.
    left: usize,
}

/// What became of the text of a string.
#[derive(Clone, Copy, PartialEq, Eq)]
pub enum Added {
    /// It follows the text before.
    Whole,
    /// There is no string of this name.
    Unknown,
    /// The entries have too much of strings.
    TooMuch,
}

impl Strings {
    /// The strings that every file has.
    pub fn new(alloc: Global) -> Result<Strings, AllocError> {
        let mut strings = Strings {
            alloc,
            texts: BTreeMap::new(alloc),
            left: MOST_OF_STRINGS,
        };
        for (name, text) in MONTHS {
            strings.set(name, String::from_str(alloc, text)?)?;
        }
        Ok(strings)
    }

    /// Sets the text of a string.
    pub fn set(&mut self, name: &str, text: String) -> Result<(), AllocError> {
        let name = small(self.alloc, name)?;
        self.texts.insert(name, text)?;
        Ok(())
    }

    /// Appends the text of a string.
    pub fn push(&mut self, name: &str, out: &mut String) -> Result<Added, AllocError> {
        let name = small(self.alloc, name)?;
        let Some(text) = self.texts.get(name.as_str()) else {
            return Ok(Added::Unknown);
        };
        match self.left.checked_sub(text.len()) {
            Some(left) => {
                self.left = left;
                out.push_str(text.as_str())?;
                Ok(Added::Whole)
            }
            None => Ok(Added::TooMuch),
        }
    }
}

/// The text in small letters.
pub fn small(alloc: Global, text: &str) -> Result<String, AllocError> {
    let mut out = String::new(alloc);
    for c in text.chars() {
        out.extend(c.to_lowercase())?;
    }
    Ok(out)
}

//! What the writing of a document may take.
use crate::cost::Cost;
use crate::error::{Excess, LimitError, StylePlace};
use reference_values::reference::Reference;
use std::cell::Cell;
use style_file::date::DatePart;
use style_file::locale::{LocaleDate, StyleLocale, Term, TermWords};
use style_file::style::CslStyle;

/// What a document has for each cite and each item where nothing else is asked for.
pub const USUAL_PART: Cost = Cost {
    steps: 5_000,
    bytes: 100_000,
};

/// How many parts a document has whatever it cites.
const FIXED_PARTS: usize = 40;

/// How many parts one cite, item or key may take.
const PARTS_OF_ONE: usize = 2;

/// For how many of its names an item has one more part.
const NAMES_OF_PART: usize = 128;

/// For how many bytes of its texts an item has one more part.
const BYTES_OF_PART: usize = 20_000;

/// What the words of locale files take at most, as costs count them.
const USUAL_WORDS: usize = 32;

/// How many locales a style may have whose languages are compared.
const MANY_LOCALES: usize = 500;

/// How many locales or parts of dates are looked at in a step. A date of a locale has three parts,
/// and there are two.
const LOOKUPS_OF_STEP: usize = 16;

/// What the writing of a document may take, and what is left of it.
#[derive(Drop)]
pub struct Budget {
    part: Cost,
    /// What there was of it.
    most: Cost,
    left: Cell<Cost>,
    words: Cost,
}

/// What one cite, item or key may take.
#[derive(Clone, Copy)]
pub struct Allowance {
    pub left: Cost,
    /// What there was of it, or of the whole budget where that ends first.
    pub most: Cost,
}

impl Budget {
    /// The budget of a document in a style that has so many parts, each of this cost, beside those
    /// of every document.
    pub fn new(style: &CslStyle, part: Cost, parts: usize) -> Budget {
        let most = part.times(FIXED_PARTS.saturating_add(parts));
        Budget {
            part,
            most,
            left: Cell::new(most),
            words: words_of(&style.locales),
        }
    }

    /// What finding and writing the words of a term takes at most.
    pub fn words(&self) -> Cost {
        self.words
    }

    /// What every document has.
    pub fn fixed(&self) -> Cost {
        self.part.times(FIXED_PARTS)
    }

    /// What one cite, item or key may take, where its item has few names.
    pub fn of_one(&self) -> Cost {
        self.part.times(PARTS_OF_ONE)
    }

    /// What a cite or a key of this item may take, or what is written of the item.
    pub fn allowance(&self, reference: &Reference) -> Allowance {
        let own = self.of_one().times(parts_of_item(reference));
        let left = self.left.get();
        Allowance {
            left: own.least(left),
            most: if left.lacks(own).is_some() {
                self.most
            } else {
                own
            },
        }
    }

    /// Takes what was spent.
    pub fn take(&self, spent: Cost) {
        self.left.set(self.left.get().less(spent));
    }

    /// Takes a cost of a part of the style.
    ///
    /// # Errors
    ///
    /// `Exceeded` where there is less left.
    pub fn spend(&self, cost: Cost, place: StylePlace) -> Result<(), LimitError> {
        match self.left.get().lacks(cost) {
            Some(what) => Err(LimitError::Exceeded(Excess::of(what, self.most, place))),
            None => {
                self.take(cost);
                Ok(())
            }
        }
    }
}

/// How many parts a document has for an item, and for each cite of it.
pub fn parts_of_item(reference: &Reference) -> usize {
    let of_names = names_of_item(reference) / NAMES_OF_PART;
    let of_texts = bytes_of_item(reference) / BYTES_OF_PART;
    of_names.saturating_add(of_texts).saturating_add(1)
}

/// How long the texts of an item are.
fn bytes_of_item(reference: &Reference) -> usize {
    let mut bytes = 0usize;
    for (_, text) in &reference.texts {
        for run in &text.runs {
            bytes = bytes.saturating_add(run.text.len());
        }
    }
    bytes
}

/// How many names an item has.
pub fn names_of_item(reference: &Reference) -> usize {
    let mut names = 0usize;
    for (_, persons) in &reference.names {
        names = names.saturating_add(persons.len());
    }
    names
}

/// What finding and writing words in the locales of a style takes at most: of a term, or of what
/// stands around the parts of a date.
fn words_of(locales: &[StyleLocale]) -> Cost {
    let mut longest = USUAL_WORDS;
    let mut parts = 0usize;
    for locale in locales {
        longest = longest.max(longest_of(locale));
        parts = parts.max(parts_of_dates(locale));
    }
    Cost {
        steps: repeated(locales).saturating_add(parts) / LOOKUPS_OF_STEP,
        bytes: longest,
    }
}

/// How many parts the dates of a locale have, and dates.
fn parts_of_dates(locale: &StyleLocale) -> usize {
    let mut parts = locale.locale.dates.len();
    for date in &locale.locale.dates {
        parts = parts.saturating_add(date.parts.len());
    }
    parts
}

/// How many locales are of the same language as one before them; of very many, all.
fn repeated(locales: &[StyleLocale]) -> usize {
    if locales.len() > MANY_LOCALES {
        return locales.len();
    }
    let mut repeated = 0usize;
    for (place, locale) in locales.iter().enumerate() {
        let before = locales.iter().take(place);
        if before
            .filter(|other| are_of_one_language(other, locale))
            .count()
            > 0
        {
            repeated = repeated.saturating_add(1);
        }
    }
    repeated
}

fn are_of_one_language(one: &StyleLocale, other: &StyleLocale) -> bool {
    match (&one.language, &other.language) {
        (Some(one), Some(other)) => one.as_str().eq_ignore_ascii_case(other.as_str()),
        (None, None) => true,
        _ => false,
    }
}

/// The length of the longest words that a locale has: of a term, or around the parts of a date.
pub(crate) fn longest_of(locale: &StyleLocale) -> usize {
    let mut longest = 0usize;
    for term in &locale.locale.terms {
        longest = longest.max(length_of_term(term));
    }
    for date in &locale.locale.dates {
        longest = longest.max(length_of_date(date));
    }
    longest
}

fn length_of_term(term: &Term) -> usize {
    match &term.words {
        TermWords::Invariable(words) => words.len(),
        TermWords::Numbered { single, multiple } => single.len().max(multiple.len()),
    }
}

fn length_of_date(date: &LocaleDate) -> usize {
    let delimiters = date.delimiter.len().saturating_mul(date.parts.len());
    parts_length(&date.parts).saturating_add(delimiters)
}

/// The length of what stands around the parts of a date.
pub(crate) fn parts_length(parts: &[DatePart]) -> usize {
    let mut length = 0usize;
    for part in parts {
        length = length
            .saturating_add(part.affixes.prefix.len())
            .saturating_add(part.affixes.suffix.len())
            .saturating_add(part.range_delimiter.as_deref().unwrap_or("").len());
    }
    length
}

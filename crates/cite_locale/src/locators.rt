//! Locators of several parts, as `12, § 3`.
use crate::chain::LocaleChain;
use std::alloc::{AllocError, Global};
use style_file::locator::{LOCATOR_TYPES, LocatorType};
use style_file::term::TermForm;

/// A part of a locator.
#[derive(Clone, Copy)]
pub struct LocatorPart<'t> {
    /// What stands between it and the part before it; empty for the first.
    pub before: &'t str,
    pub label: LocatorType,
    /// Where its text begins in that of the locator.
    pub start: usize,
    /// What it counts, without the label.
    pub text: &'t str,
}

/// The parts of a locator. A part begins with a label: a locator term of the locale in any of its
/// forms, or an abbreviation that is in use. What stands before the first label is of the type
/// `label`.
///
/// # Errors
///
/// Where memory is refused.
pub fn locator_parts<'t>(
    alloc: Global,
    locales: &LocaleChain<'_>,
    text: &'t str,
    label: LocatorType,
) -> Result<Vec<LocatorPart<'t>>, AllocError> {
    let text = text.trim();
    let mut parts = Parts {
        text,
        parts: Vec::new(alloc),
        start: 0,
        label,
        before: "",
    };
    for found in labels(alloc, locales, text)? {
        parts.push_until(found.start)?;
        parts.start = found.end;
        parts.label = found.label;
    }
    parts.push_until(text.len())?;
    Ok(parts.parts)
}

/// Parts as they are found.
#[derive(Drop)]
struct Parts<'t> {
    text: &'t str,
    parts: Vec<LocatorPart<'t>>,
    /// Where the part begins that comes next, behind its label.
    start: usize,
    label: LocatorType,
    /// What stands before it.
    before: &'t str,
}

impl Parts<'_> {
    /// Adds the part that ends before this place, unless it is empty.
    fn push_until(&mut self, end: usize) -> Result<(), AllocError> {
        let whole = self.text.get(self.start..end).unwrap_or("");
        let text = whole.trim_end_matches(is_between);
        let between = whole.strip_prefix(text).unwrap_or("");
        let counted = text.trim_start();
        if counted.is_empty() {
            return Ok(());
        }
        let indent = text.len().saturating_sub(counted.len());
        self.parts.push(LocatorPart {
            before: self.before,
            label: self.label,
            start: self.start.saturating_add(indent),
            text: counted,
        })?;
        self.before = between;
        Ok(())
    }
}

/// Whether a character stands between two parts.
fn is_between(c: char) -> bool {
    c.is_whitespace() || matches!(c, ',' | ';' | '&')
}

/// A label in a locator, with where it begins and where it ends.
#[derive(Clone, Copy)]
struct Found {
    start: usize,
    end: usize,
    label: LocatorType,
}

/// The labels at the beginnings of parts.
fn labels(alloc: Global, locales: &LocaleChain<'_>, text: &str) -> Result<Vec<Found>, AllocError> {
    let mut found = Vec::new(alloc);
    let mut is_at_start = true;
    let mut is_marked = false;
    for (start, c) in text.char_indices() {
        if is_at_start && can_begin_label(c) {
            if let Some(label) = label_at(locales, text, start) {
                found.push(label)?;
            }
        }
        is_marked = matches!(c, ',' | ';' | '&') || (is_marked && c.is_whitespace());
        is_at_start = is_marked;
    }
    Ok(found)
}

/// Whether a label may begin with a character: neither what stands between parts nor a digit.
fn can_begin_label(c: char) -> bool {
    !is_between(c) && !c.is_ascii_digit()
}

/// The longest label at this place.
fn label_at(locales: &LocaleChain<'_>, text: &str, start: usize) -> Option<Found> {
    let rest = text.get(start..)?;
    let mut longest = Longest {
        len: 0,
        label: None,
    };
    for (_, label) in LOCATOR_TYPES {
        for form in [TermForm::Long, TermForm::Short, TermForm::Symbol] {
            for is_plural in [false, true] {
                if let Some(words) = locales.plain_term(label.term(), form, is_plural) {
                    longest.meet(rest, words, *label);
                }
            }
        }
    }
    for (words, label) in ABBREVIATIONS {
        longest.meet(rest, *words, *label);
    }
    Some(Found {
        start,
        end: start.saturating_add(longest.len),
        label: longest.label?,
    })
}

/// The longest label that a text begins with.
#[derive(Clone, Copy)]
struct Longest {
    len: usize,
    label: Option<LocatorType>,
}

impl Longest {
    /// Takes these words where the text begins with them, what is behind them is no more of a word,
    /// and behind a word counts something, and they are longer.
    fn meet(&mut self, text: &str, words: &str, label: LocatorType) {
        let Some(behind) = text.strip_prefix(words) else {
            return;
        };
        let is_word = words.ends_with(|c: char| c.is_alphabetic());
        let is_cut = is_word
            && (behind.starts_with(|c: char| c.is_alphanumeric()) || !begins_with_count(behind));
        let is_last = behind.trim().is_empty();
        if words.len() > self.len && !is_cut && !is_last {
            self.len = words.len();
            self.label = Some(label);
        }
    }
}

/// Whether what follows a word counts something: it is not so with `table of contents`.
fn begins_with_count(text: &str) -> bool {
    let first = text.split_whitespace().next().unwrap_or("");
    first.chars().any(|c| c.is_numeric())
        || first.starts_with(|c: char| c.is_uppercase())
        || first.chars().all(|c| "ivxlcdm".contains(c))
        || first.chars().count() == 1
}

/// Abbreviations of locator types that are in use in any language.
const ABBREVIATIONS: &[(&str, LocatorType)] = &[
    ("§", LocatorType::Section),
    ("§§", LocatorType::Section),
    ("¶", LocatorType::Paragraph),
    ("¶¶", LocatorType::Paragraph),
    ("bk.", LocatorType::Book),
    ("ch.", LocatorType::Chapter),
    ("chap.", LocatorType::Chapter),
    ("col.", LocatorType::Column),
    ("fig.", LocatorType::Figure),
    ("fol.", LocatorType::Folio),
    ("l.", LocatorType::Line),
    ("ll.", LocatorType::Line),
    ("n.", LocatorType::Note),
    ("no.", LocatorType::Issue),
    ("op.", LocatorType::Opus),
    ("p.", LocatorType::Page),
    ("pp.", LocatorType::Page),
    ("para.", LocatorType::Paragraph),
    ("pt.", LocatorType::Part),
    ("sec.", LocatorType::Section),
    ("s.v.", LocatorType::SubVerbo),
    ("vol.", LocatorType::Volume),
    ("vols.", LocatorType::Volume),
    ("vv.", LocatorType::Verse),
];

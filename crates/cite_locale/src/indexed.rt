//! Locales whose terms are found by their names.
use crate::find::Wanted;
use std::alloc::{AllocError, Global};
use style_file::locale::{Locale, Term};
use style_file::term::{PLAIN_TERMS, PlainTerm, TermName};

/// A locale whose terms are found by their names.
#[derive(Drop)]
pub(crate) struct IndexedLocale<'a> {
    pub locale: &'a Locale,
    /// Whether it has suffixes of ordinals.
    pub has_ordinals: bool,
    /// The terms of each name (`index_of`), in the order of the file.
    terms: Vec<Vec<&'a Term>>,
}

impl<'a> IndexedLocale<'a> {
    pub fn new(alloc: Global, locale: &'a Locale) -> Result<IndexedLocale<'a>, AllocError> {
        let mut indexed = IndexedLocale {
            locale,
            has_ordinals: false,
            terms: terms_of_no_name(alloc)?,
        };
        for term in &locale.terms {
            indexed.add(term)?;
        }
        Ok(indexed)
    }

    fn add(&mut self, term: &'a Term) -> Result<(), AllocError> {
        if is_of_ordinals(term.name) {
            self.has_ordinals = true;
        }
        if let Some(terms) = self.terms.get_mut(index_of(term.name)) {
            terms.push(term)?;
        }
        Ok(())
    }

    /// The term in this form alone. One for the gender goes before one for any gender, and of equal
    /// ones the last.
    pub fn term(&self, wanted: Wanted) -> Option<&'a Term> {
        let terms = self.terms.get(index_of(wanted.name))?;
        let mut of_gender = None;
        let mut for_all = None;
        for term in terms {
            if term.form != wanted.form {
                continue;
            }
            if term.gender_form.is_none() {
                for_all = Some(*term);
            } else if term.gender_form == wanted.gender {
                of_gender = Some(*term);
            }
        }
        of_gender.or(for_all)
    }
}

/// How many ordinals there may be of a kind.
const ORDINALS: usize = 256;

/// A list without terms for each name.
fn terms_of_no_name<'a>(alloc: Global) -> Result<Vec<Vec<&'a Term>>, AllocError> {
    let mut terms = Vec::new(alloc);
    for _ in 0..PLAIN_TERMS.len().saturating_add(2 * ORDINALS) {
        terms.push(Vec::new(alloc))?;
    }
    Ok(terms)
}

/// The index of a name among all.
fn index_of(name: TermName) -> usize {
    match name {
        TermName::Ordinal(number) => number as usize,
        TermName::LongOrdinal(number) => ORDINALS.saturating_add(number as usize),
        TermName::Plain(term) => (2 * ORDINALS).saturating_add(term as usize),
    }
}

fn is_of_ordinals(name: TermName) -> bool {
    matches!(
        name,
        TermName::Ordinal(_) | TermName::Plain(PlainTerm::Ordinal)
    )
}

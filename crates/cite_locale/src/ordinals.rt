//! Ordinals (CSL 1.0.2, Ordinals, Ordinal Suffixes and Long Ordinals).
use crate::chain::LocaleChain;
use crate::find::{Wanted, words_of};
use crate::indexed::IndexedLocale;
use style_file::locale::Term;
use style_file::term::{Gender, OrdinalMatch, PlainTerm, TermForm, TermName};

impl<'a> LocaleChain<'a> {
    /// What follows the digits of an ordinal, for a noun of this gender; empty where no locale says
    /// it. All suffixes are those of the first locale that has one: a style that defines one
    /// defines all.
    ///
    /// A term for the whole number goes before one for its last two digits, that before one for its
    /// last digit, and that before the term `ordinal`.
    pub fn ordinal_suffix(&self, number: u32, gender: Option<Gender>) -> &'a str {
        for locale in &self.locales {
            if locale.has_ordinals {
                return match suffix_of(locale, number, gender) {
                    Some(term) => words_of(term, false),
                    None => "",
                };
            }
        }
        ""
    }

    /// The word for an ordinal from 1 to 10, for a noun of this gender; `None` for other numbers,
    /// and where no locale has it.
    pub fn long_ordinal(&self, number: u32, gender: Option<Gender>) -> Option<&'a str> {
        let Ok(number) = u8::try_from(number) else {
            return None;
        };
        if !matches!(number, 1..=10) {
            return None;
        }
        let term = self.find(Wanted {
            name: TermName::LongOrdinal(number),
            form: TermForm::Long,
            gender,
        })?;
        Some(words_of(term, false))
    }
}

fn suffix_of<'a>(
    locale: &IndexedLocale<'a>,
    number: u32,
    gender: Option<Gender>,
) -> Option<&'a Term> {
    let ending = (number % 100) as u8;
    let digit = ending % 10;
    if number < 100 {
        if let Some(term) = matched(locale, ending, OrdinalMatch::WholeNumber, gender) {
            return Some(term);
        }
    }
    if let Some(term) = matched(locale, ending, OrdinalMatch::LastTwoDigits, gender) {
        return Some(term);
    }
    if let Some(term) = matched(locale, digit, OrdinalMatch::LastDigit, gender) {
        return Some(term);
    }
    locale.term(Wanted {
        name: TermName::Plain(PlainTerm::Ordinal),
        form: TermForm::Long,
        gender,
    })
}

/// The term `ordinal-NN` of this NN, if it is for numbers that match in this way.
fn matched<'a>(
    locale: &IndexedLocale<'a>,
    ending: u8,
    how: OrdinalMatch,
    gender: Option<Gender>,
) -> Option<&'a Term> {
    let term = locale.term(Wanted {
        name: TermName::Ordinal(ending),
        form: TermForm::Long,
        gender,
    })?;
    let own = match term.ordinal_match {
        Some(own) => own,
        None => default_match(ending),
    };
    if own == how { Some(term) } else { None }
}

/// How a term `ordinal-NN` matches that does not tell it.
fn default_match(ending: u8) -> OrdinalMatch {
    if ending < 10 {
        OrdinalMatch::LastDigit
    } else {
        OrdinalMatch::LastTwoDigits
    }
}

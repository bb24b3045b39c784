//! Locales (CSL 1.0.2, "Locale").
use crate::date::{DateForm, DatePart};
use crate::formatting::{Formatting, TextCase};
use crate::term::{Gender, OrdinalMatch, TermForm, TermName};

/// The words of a term.
#[derive(Drop)]
pub enum TermWords {
    /// The same for one and for many.
    Invariable(String),
    Numbered { single: String, multiple: String },
}

/// An element `term`.
#[derive(Drop)]
pub struct Term {
    pub name: TermName,
    pub form: TermForm,
    /// The gender of the noun, which its ordinals take.
    pub gender: Option<Gender>,
    /// The gender of the nouns for which this form of an ordinal is.
    pub gender_form: Option<Gender>,
    /// Which numbers an ordinal's suffix is for: by default those that end in its last digit up to
    /// `ordinal-09`, and those that end in both of its digits from `ordinal-10` on.
    pub ordinal_match: Option<OrdinalMatch>,
    pub words: TermWords,
}

/// A localized date: an element `date` of a locale.
#[derive(Drop)]
pub struct LocaleDate {
    pub form: DateForm,
    pub parts: Vec<DatePart>,
    pub delimiter: String,
    pub formatting: Formatting,
    pub text_case: Option<TextCase>,
}

/// The attributes of `style-options`. What is absent is for another locale to say, and then is
/// `false`.
#[derive(Clone, Copy, PartialEq, Eq)]
pub struct LocaleOptions {
    pub limit_day_ordinals_to_day_1: Option<bool>,
    pub punctuation_in_quote: Option<bool>,
}

/// What a locale says.
#[derive(Drop)]
pub struct Locale {
    /// The terms, in the order of the file.
    pub terms: Vec<Term>,
    /// The dates, in the order of the file.
    pub dates: Vec<LocaleDate>,
    pub options: LocaleOptions,
}

/// A locale file.
#[derive(Drop)]
pub struct LocaleFile {
    /// The language tag, as it is written.
    pub language: String,
    pub locale: Locale,
}

/// A `locale` of a style, which overrides locale files.
#[derive(Drop)]
pub struct StyleLocale {
    /// The language tag, as it is written; absent, the locale is for every language.
    pub language: Option<String>,
    pub locale: Locale,
}

//! Locales: terms in the words of a language (CSL 1.0.2, locale files).
use value_sources::taxonomy::{Term, TermForm};

/// A language tag as `de-AT`; its base language is the text before the first `-`.
#[derive(Clone, PartialEq, Eq, Drop)]
pub struct LocaleCode(pub String);

/// A term's words in one form.
#[derive(PartialEq, Eq, Drop)]
pub struct LocalizedTerm {
    pub name: Term,
    pub form: TermForm,
    pub single: Option<String>,
    pub multiple: Option<String>,
}

/// What one locale file, or a style for one language, has to say.
#[derive(PartialEq, Eq, Drop)]
pub struct Locale {
    /// The language; none stands for every language.
    pub lang: Option<LocaleCode>,
    pub terms: Vec<LocalizedTerm>,
    /// Whether a mark (`.`, `,`, `;`, `!` or `?`) goes before a closing quote.
    pub punctuation_in_quote: Option<bool>,
}

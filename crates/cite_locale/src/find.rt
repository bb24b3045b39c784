//! How a term is found in a locale.
use style_file::locale::{Term, TermWords};
use style_file::term::{Gender, TermForm, TermName};

/// What is looked for.
#[derive(Clone, Copy)]
pub(crate) struct Wanted {
    pub name: TermName,
    pub form: TermForm,
    /// The gender that the term takes, as an ordinal does from its noun.
    pub gender: Option<Gender>,
}

/// The words of a term for one or for many.
pub(crate) fn words_of(term: &Term, is_plural: bool) -> &str {
    match &term.words {
        TermWords::Invariable(words) => words.as_str(),
        TermWords::Numbered { single, multiple } => {
            if is_plural {
                multiple.as_str()
            } else {
                single.as_str()
            }
        }
    }
}

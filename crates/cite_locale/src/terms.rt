//! Terms in their forms (CSL 1.0.2, Terms).
use crate::chain::LocaleChain;
use crate::find::{Wanted, words_of};
use crate::indexed::IndexedLocale;
use style_file::locale::Term;
use style_file::term::{Gender, PlainTerm, TermForm, TermName};

impl<'a> LocaleChain<'a> {
    /// The words of a term in this form, for many if `is_plural`; `None` where no locale has the
    /// term. A form that no locale of the language has is that which stands for it: `verb-short` is
    /// `verb`, `symbol` is `short`, and these are `long`; then English is asked in the same way.
    /// Words that are a line break and spaces are empty.
    pub fn term(&self, name: TermName, form: TermForm, is_plural: bool) -> Option<&'a str> {
        let term = self.find_in_forms(name, form)?;
        let words = words_of(term, is_plural);
        let is_blank = words.contains('\n') && words.trim().is_empty();
        Some(if is_blank { "" } else { words })
    }

    /// The words of a term with a name of its own.
    pub fn plain_term(&self, term: PlainTerm, form: TermForm, is_plural: bool) -> Option<&'a str> {
        self.term(TermName::Plain(term), form, is_plural)
    }

    /// The gender of a noun, which its ordinals take: that of the first locale that has the term.
    pub fn gender_of(&self, term: PlainTerm) -> Option<Gender> {
        self.find_in_forms(TermName::Plain(term), TermForm::Long)?
            .gender
    }

    fn find_in_forms(&self, name: TermName, form: TermForm) -> Option<&'a Term> {
        find_in_forms(self.own(), name, form).or_else(|| find_in_forms(
            self.of_english(),
            name,
            form,
        ))
    }

    /// The term of the first locale that has it.
    pub(crate) fn find(&self, wanted: Wanted) -> Option<&'a Term> {
        find(self.locales.as_slice(), wanted)
    }
}

/// The term of these locales, in this form or in one that stands for it.
fn find_in_forms<'a>(
    locales: &[IndexedLocale<'a>],
    name: TermName,
    form: TermForm,
) -> Option<&'a Term> {
    let second = form.fallback();
    let third = second.and_then(|form| form.fallback());
    let forms = [Some(form), second, third];
    for form in forms.iter().flatten() {
        let wanted = Wanted {
            name,
            form: *form,
            gender: None,
        };
        if let Some(term) = find(locales, wanted) {
            return Some(term);
        }
    }
    None
}

fn find<'a>(locales: &[IndexedLocale<'a>], wanted: Wanted) -> Option<&'a Term> {
    for locale in locales {
        if let Some(term) = locale.term(wanted) {
            return Some(term);
        }
    }
    None
}

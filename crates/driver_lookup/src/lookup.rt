//! Look-up of terms in the locales of a style (CSL 1.0.2, locale fallback).
ghost use Rattle.std.specs.Prelude.{
  ◌≡◌,
  [],
  ◌∷◌,
  IfOk,
  None,
  bytes_eq,
  map,
  option_map,
  option_to_list,
};
ghost use Rattle.value_styles.specs.ElementView.{elements_view};
ghost use Rattle.value_sources.specs.Found.{first_value};
ghost use Rattle.value_styles.specs.Ring.{body_of, IsFirstRing, HasNoRing};
ghost use Rattle.value_styles.specs.StyleView.{code_view, locale_view, style_view, term_view};
ghost use Rattle.driver_lookup.specs.Lookup as found;
ghost use Rattle.driver_lookup.specs.FirstAnswer.{Gives, FirstAnswer};
ghost use Rattle.driver_styles.specs.MadeOf.{IsOf, IsOf-prop};
ghost use Rattle.driver_styles.specs.PreparedView.{prepared_view};
ghost use Rattle.driver_styles.specs.SuffixText.{explicit_suffix};
ghost use Rattle.driver_styles.specs.TablesView.{locales_of};
ghost use Rattle.driver_styles.specs.Terms.{locale_of, term_in};

use crate::prepared::term_by_tables;
use csl_base::element::LayoutRenderingElement;
use csl_base::locale::{Locale, LocaleCode, LocalizedTerm};
use csl_base::ring::body_of;
use csl_base::style::IndependentStyle;
use csl_base::taxonomy::{Locator, NumberVariable, Term, TermForm};
use driver_styles::locales::locale_of;
use driver_styles::prepared::{PreparedSource, PreparedStyle};
use driver_styles::suffix_text::explicit_suffix;
use driver_styles::terms::TermTables;
use std::alloc::{AllocError, Global};

/// A style, with the locales that it is written in.
#[derive(Clone, Copy)]
pub struct StyleLocales<'a> {
    pub style: &'a IndependentStyle,
    prepared: Option<PreparedSource<'a>>,
    locale: Option<&'a LocaleCode>,
    files: &'a [Locale],
    ghost same: { IsOf prepared style.now files.now } by { IsOf-prop prepared style.now files.now },
}

impl<'a> StyleLocales<'a> {
    ghost use Rattle.driver_lookup.specs.SourceView.{source_view, lookup_view};

    /// The style in this locale, or in its own where there is none; `files` are asked for what the
    /// style's locales don't have.
    pub fn new(
        style: &'a IndependentStyle,
        locale: Option<&'a LocaleCode>,
        files: &'a [Locale],
    ) -> StyleLocales<'a>
        ensures { source_view result
            ≡ record {
              style = style_view style.now;
              locale = option_map (λ code. code_view code.now) locale.entry;
              files = map locale_view files.now;
            } }
    {
        StyleLocales {
            style,
            prepared: None,
            locale,
            files,
        }
    }

    /// As `new` makes it, of a prepared style and the tables of the files: they are what is asked.
    pub fn of_prepared<'s: 'a>(
        prepared: &'a PreparedStyle<'s>,
        locale: Option<&'a LocaleCode>,
        files: &'a TermTables<'s>,
    ) -> StyleLocales<'a>
        ensures { source_view result
            ≡ record {
              style = prepared_view prepared.now;
              locale = option_map (λ code. code_view code.now) locale.entry;
              files = map locale_view (locales_of files.now);
            } }
    {
        StyleLocales {
            style: prepared.style(),
            prepared: Some(PreparedSource {
                style: prepared,
                files,
            }),
            locale,
            files: files.locales(),
        }
    }

    /// The children of the style's first macro of a name; none without such a macro.
    pub fn body_of(&self, name: &str) -> Option<&'a [LayoutRenderingElement]>
        ensures { option_map (λ v. elements_view v.now) result
            ≡ body_of name.now (source_view self.now).style.macros }
    {
        match self.prepared {
            Some(prepared) => prepared.style.body_of(name),
            None => body_of(&self.style.macros, name),
        }
    }

    /// Whether a year-suffix text stands in either layout of the style, at any depth, through
    /// macros too.
    ///
    /// # Errors
    ///
    /// Where memory is refused.
    pub fn explicit_suffix(&self, alloc: Global) -> Result<bool, AllocError>
        requires { HasNoRing (source_view self.now).style.macros }
        ensures { IfOk result (λ b. b ≡ explicit_suffix (source_view self.now).style) }
    {
        match self.prepared {
            Some(prepared) => Ok(prepared.style.explicit_suffix()),
            None => explicit_suffix(alloc, self.style),
        }
    }

    /// What `IndependentStyle::ring` answers of the style: the place of its first macro that calls
    /// itself, through others or alone. A prepared style has none, and isn't looked at again.
    ///
    /// # Errors
    ///
    /// Where memory is refused.
    pub fn ring(&self, alloc: Global) -> Result<Option<usize>, AllocError>
        ensures first { IfOk result (IsFirstRing (source_view self.now).style.macros) }
        ensures none { IfOk result (λ r. r ≡ None → HasNoRing (source_view self.now).style.macros) }
    {
        match self.prepared {
            Some(_) => Ok(None),
            None => self.style.ring(alloc),
        }
    }

    /// The code of the locale in use: the one that was asked for, else the style's own, else
    /// `en-US`.
    pub fn locale(&self) -> &'a str
        ensures { result.now ≡ found.locale_in_use (source_view self.now) }
    {
        match (self.locale, &self.style.default_locale) {
            (Some(code), _) => code.0.as_str(),
            (None, Some(code)) => code.0.as_str(),
            (None, None) => "en-US",
        }
    }

    /// The first answer that the closure gives of the locales that are asked, in this order: of
    /// the style's own the first of the locale in use, of its base language, and of no language;
    /// then of the files the first of the locale in use, of its primary dialect, and of `en-US`.
    /// `None` where it answers `None` of each. The closure has to accept any locale. The look-up
    /// takes no memory.
    pub fn lookup_locale<F: Fn(&'a Locale) -> Option<R> + Drop, R>(&self, f: F) -> Option<R>
        requires { F.IsAlwaysCallable f }
        ensures { FirstAnswer (Gives F.Fn f) (found.asked (lookup_view self.now)) result }
    {
        match self.answer_of_own(&f) {
            Some(answer) => Some(answer),
            None => self.answer_of_files(&f),
        }
    }

    // The first answer of the style's own locales.
    fn answer_of_own<F: Fn(&'a Locale) -> Option<R>, R>(&self, f: &F) -> Option<R>
        requires { F.IsAlwaysCallable f.now }
        ensures { FirstAnswer (Gives F.Fn f.now) (found.asked_own (lookup_view self.now)) result }
    {
        let own = self.style.locale.as_slice();
        if let Some(answer) = answer_of(own, Some(self.locale()), f) {
            return Some(answer);
        }
        if let Some(answer) = answer_of(own, Some(base_language(self.locale())), f) {
            return Some(answer);
        }
        answer_of(own, None, f)
    }

    // The first answer of the files.
    fn answer_of_files<F: Fn(&'a Locale) -> Option<R>, R>(&self, f: &F) -> Option<R>
        requires { F.IsAlwaysCallable f.now }
        ensures { FirstAnswer (Gives F.Fn f.now) (found.asked_files (lookup_view self.now)) result }
    {
        if let Some(answer) = answer_of(self.files, Some(self.locale()), f) {
            return Some(answer);
        }
        if let Some(dialect) = primary_dialect(self.locale()) {
            if let Some(answer) = answer_of(self.files, Some(dialect), f) {
                return Some(answer);
            }
        }
        answer_of(self.files, Some("en-US"), f)
    }

    /// Whether a mark (`.`, `,`, `;`, `!` or `?`) goes before a closing quote: as the first locale
    /// says that is asked and says anything of it, else not.
    pub fn punctuation_in_quotes(&self) -> bool
        ensures { result ≡ found.punctuation_in_quotes (lookup_view self.now) }
    {
        self.lookup_locale(|locale| locale.punctuation_in_quote)
            .unwrap_or(false)
    }

    // The first form of the term that is found, of the asked one and those that stand in for it.
    fn found_term(&self, name: Term, form: TermForm) -> Option<&'a LocalizedTerm>
        ensures { option_map (λ t. term_view t.now) result
            ≡ found.found_term (lookup_view self.now) name form }
    {
        for form in forms_from(form) {
            if let Some(term) = self.term_of_form(name, *form) {
                return Some(term);
            }
        }
        None
    }

    // The term that the first locale has in this form; by tables, where they are prepared.
    fn term_of_form(&self, name: Term, form: TermForm) -> Option<&'a LocalizedTerm>
        ensures { option_map (λ t. term_view t.now) result
            ≡ found.first_answer (term_in name form) (found.asked (lookup_view self.now)) }
    {
        match self.prepared {
            Some(prepared) => term_by_tables(prepared, self.locale(), name, form),
            None => self.lookup_locale(|locale| term_in(locale, name, form)),
        }
    }

    /// The term in words, for a cite whose locator counts `locator`: the first of the form, and the
    /// forms that stand in for it, that some locale has. `None` where none has it, and where the
    /// term that is found has no words in this number: then nothing else is asked.
    pub fn term(
        &self,
        locator: Option<Locator>,
        name: Term,
        form: TermForm,
        plural: bool,
    ) -> Option<&'a str>
        ensures { option_map (λ t. t.now) result
            ≡ found.term_of (lookup_view self.now) locator name form plural }
    {
        let term = self.found_term(term_meant(locator, name), form)?;
        let words = if plural { &term.multiple } else { &term.single };
        words.as_deref()
    }
}

// What the closure answers of the first locale of a language.
fn answer_of<'a, F: Fn(&'a Locale) -> Option<R>, R>(
    locales: &'a [Locale],
    language: Option<&str>,
    f: &F,
) -> Option<R>
    requires { F.IsAlwaysCallable f.now }
    ensures { FirstAnswer (Gives F.Fn f.now)
        (option_to_list (locale_of (option_map (λ t. t.now) language.entry)
        (map locale_view locales.now)))
        result }
{
    let locale = locale_of(locales, language)?;
    f(locale)
}

// The text before the first `-`, or the whole code where there is none.
pub(crate) fn base_language(code: &str) -> &str
    ensures { result.now ≡ found.base_language code.now }
{
    match code.split_once('-') {
        Some((base, _)) => base,
        None => code,
    }
}

// The dialect in which a dialect's words are looked up next. The codes that have one end in bytes
// of their own, so at most one of them is compared.
pub(crate) fn primary_dialect(code: &str) -> Option<&'static str>
    ensures { option_map (λ t. t.now) result ≡ found.primary_dialect code.now }
{
    match *code.as_bytes().last()? {
        b'T' => if_is(code, "de-AT", "de-DE"),
        b'H' => if_is(code, "de-CH", "de-DE"),
        b'B' => if_is(code, "en-GB", "en-US"),
        b'R' => if_is(code, "pt-BR", "pt-PT"),
        b'W' => if_is(code, "zh-TW", "zh-CN"),
        _ => None,
    }
}

// The primary dialect, where the code is this dialect's.
fn if_is(code: &str, dialect: &str, primary: &'static str) -> Option<&'static str>
    ensures { option_map (λ t. t.now) result
        ≡ first_value bytes_eq code.now ((dialect.now, primary.now) ∷ []) }
{
    if code == dialect { Some(primary) } else { None }
}

// A form, and then those that stand in for it (CSL 1.0.2, terms).
fn forms_from(form: TermForm) -> &'static [TermForm]
    ensures { result.now ≡ found.forms_from form }
{
    match form {
        TermForm::Long => &[TermForm::Long],
        TermForm::Short => &[TermForm::Short, TermForm::Long],
        TermForm::Verb => &[TermForm::Verb, TermForm::Long],
        TermForm::VerbShort => &[TermForm::VerbShort, TermForm::Verb, TermForm::Long],
        TermForm::Symbol => &[TermForm::Symbol, TermForm::Short, TermForm::Long],
    }
}

// The first term of a locale that has this name and form.
fn term_in(locale: &Locale, name: Term, form: TermForm) -> Option<&LocalizedTerm>
    ensures { option_map (λ t. term_view t.now) result
        ≡ term_in name form (locale_view locale.now) }
{
    for term in &locale.terms {
        if term.name == name && term.form == form {
            return Some(term);
        }
    }
    None
}

// The term of what the cite's locator counts, where the locator is asked for.
fn term_meant(locator: Option<Locator>, name: Term) -> Term
    ensures { result ≡ found.term_meant locator name }
{
    match (locator, name) {
        (Some(kind), Term::NumberVariable(NumberVariable::Locator)) => Term::Locator(kind),
        _ => name,
    }
}

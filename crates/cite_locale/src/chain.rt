//! Chains of locales (CSL 1.0.2, Locale Fallback).
use crate::indexed::IndexedLocale;
use crate::tags::{is_same_tag, usual_tag};
use cite_texts::cases::Language;
use cite_texts::quotes::QuoteMarks;
use std::alloc::{AllocError, Global};
use style_file::date::DateForm;
use style_file::fallback::{LocaleSource, lookup_order};
use style_file::locale::{LocaleDate, LocaleFile, StyleLocale};
use style_file::term::{PlainTerm, TermForm};

/// The locales in which the words of a language are looked for, in their order.
#[derive(Drop)]
pub struct LocaleChain<'a> {
    pub(crate) locales: Vec<IndexedLocale<'a>>,
    /// How many of them are of the language, and not of English in its place.
    own: usize,
    language: Language,
}

impl<'a> LocaleChain<'a> {
    /// The chain for a document in this language (a tag as `de-AT`, or `de_at`): the style's own
    /// locales for it and for all languages; then the locale files of the dialect, of the
    /// language's primary dialect, and of en-US.
    ///
    /// # Errors
    ///
    /// Where memory is refused.
    pub fn new(
        alloc: Global,
        tag: &str,
        of_style: &'a [StyleLocale],
        files: &'a [LocaleFile],
    ) -> Result<LocaleChain<'a>, AllocError> {
        let language = Language::of_tag(tag);
        let usual = usual_tag(alloc, tag)?;
        let mut locales = Vec::new(alloc);
        let mut own = 0;
        for source in lookup_order(alloc, usual.as_str())? {
            match source {
                LocaleSource::Style(tag) => {
                    push_of_style(alloc, &mut locales, of_style, Some(tag))?;
                }
                LocaleSource::StyleForAll => push_of_style(alloc, &mut locales, of_style, None)?,
                LocaleSource::File(tag) => push_file(alloc, &mut locales, files, tag)?,
            }
            if language == Language::English || !is_of_english(source) {
                own = locales.len();
            }
        }
        Ok(LocaleChain {
            locales,
            own,
            language,
        })
    }

    /// The locales of the language.
    pub(crate) fn own(&self) -> &[IndexedLocale<'a>] {
        let locales = self.locales.as_slice();
        locales.get(..self.own).unwrap_or(locales)
    }

    /// The locales of English in its place.
    pub(crate) fn of_english(&self) -> &[IndexedLocale<'a>] {
        let locales = self.locales.as_slice();
        locales.get(self.own..).unwrap_or(locales)
    }

    /// The language of text cases.
    pub fn language(&self) -> Language {
        self.language
    }

    /// The date of this form, which is that of the first locale that has it.
    pub fn date(&self, form: DateForm) -> Option<&'a LocaleDate> {
        for locale in &self.locales {
            for date in &locale.locale.dates {
                if date.form == form {
                    return Some(date);
                }
            }
        }
        None
    }

    /// Whether a period or a comma after a quote stands inside it (punctuation-in-quote), as the
    /// first locale with this option says; not where none has it.
    pub fn has_punctuation_in_quotes(&self) -> bool {
        for locale in &self.locales {
            if let Some(value) = locale.locale.options.punctuation_in_quote {
                return value;
            }
        }
        false
    }

    /// Whether the first day of a month alone is an ordinal (limit-day-ordinals-to-day-1), as the
    /// first locale with this option says; not where none has it.
    pub fn limits_day_ordinals(&self) -> bool {
        for locale in &self.locales {
            if let Some(value) = locale.locale.options.limit_day_ordinals_to_day_1 {
                return value;
            }
        }
        false
    }

    /// The quotation marks; those of English where no locale has them.
    pub fn quote_marks(&self) -> QuoteMarks<'a> {
        QuoteMarks {
            open: self.mark(PlainTerm::OpenQuote, "“"),
            close: self.mark(PlainTerm::CloseQuote, "”"),
            inner_open: self.mark(PlainTerm::OpenInnerQuote, "‘"),
            inner_close: self.mark(PlainTerm::CloseInnerQuote, "’"),
        }
    }

    /// What stands between the pages of a range (page-range-delimiter): an en dash where no locale
    /// says it.
    pub fn page_range_delimiter(&self) -> &'a str {
        self.mark(PlainTerm::PageRangeDelimiter, "–")
    }

    fn mark(&self, term: PlainTerm, otherwise: &'static str) -> &'a str {
        match self.plain_term(term, TermForm::Long, false) {
            Some(mark) => mark,
            None => otherwise,
        }
    }
}

/// Whether a source is the locale file that stands for all that others lack.
fn is_of_english(source: LocaleSource<'_>) -> bool {
    match source {
        LocaleSource::File(tag) => is_same_tag(tag, "en-US"),
        LocaleSource::Style(_) | LocaleSource::StyleForAll => false,
    }
}

/// Adds the style's locales for this language; without one, those for all languages.
fn push_of_style<'a>(
    alloc: Global,
    locales: &mut Vec<IndexedLocale<'a>>,
    of_style: &'a [StyleLocale],
    language: Option<&str>,
) -> Result<(), AllocError> {
    for own in of_style {
        let is_wanted = match (&own.language, language) {
            (Some(tag), Some(language)) => is_same_tag(tag.as_str(), language),
            (None, None) => true,
            _ => false,
        };
        if is_wanted {
            locales.push(IndexedLocale::new(alloc, &own.locale)?)?;
        }
    }
    Ok(())
}

/// Adds the locale file of this language.
fn push_file<'a>(
    alloc: Global,
    locales: &mut Vec<IndexedLocale<'a>>,
    files: &'a [LocaleFile],
    language: &str,
) -> Result<(), AllocError> {
    for file in files {
        if is_same_tag(file.language.as_str(), language) {
            locales.push(IndexedLocale::new(alloc, &file.locale)?)?;
            return Ok(());
        }
    }
    Ok(())
}

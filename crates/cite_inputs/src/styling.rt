//! A style in use.
use crate::error::{CallError, answer_refusal};
use crate::options::{CallOptions, options_of};
use crate::reader::TextReader;
use cite_locale::chain::LocaleChain;
use cite_locale::tags::usual_tag;
use cite_tasks::limits::check_style;
use std::alloc::{AllocError, Global};
use style_english::language::DEFAULT_LANGUAGE;
use style_file::locale::LocaleFile;
use style_file::style::CslStyle;

/// What the texts of a call say beside the items and the citations.
#[derive(Drop)]
pub struct Styling {
    pub style: CslStyle,
    /// The tag of the language: that of the options, or else of the style.
    pub language: String,
    /// The locale files in which words are looked for, American English among them.
    pub locales: Vec<LocaleFile>,
    pub options: CallOptions,
}

impl TextReader {
    /// What the texts of a style, of locale files and of options say (`CallTexts`).
    ///
    /// # Errors
    ///
    /// `Fault` with the first thing that is wrong: in the options, the style or the locale files;
    /// `OutOfMemory`.
    pub fn styling(
        &mut self,
        style: &[u8],
        locales: &[u8],
        options: &[u8],
    ) -> Result<Styling, CallError> {
        let options = options_of(self.alloc, options)?;
        let style = self.style(style)?;
        let language = language_of(self.alloc, &options, &style)?;
        let locales = self.locales(locales, language.as_str())?;
        Ok(Styling {
            style,
            language,
            locales,
            options,
        })
    }
}

impl Styling {
    /// The words of the language.
    ///
    /// # Errors
    ///
    /// Where memory is refused.
    pub fn locale(&self, alloc: Global) -> Result<LocaleChain<'_>, AllocError> {
        let language = self.language.as_str();
        LocaleChain::new(alloc, language, &self.style.locales, &self.locales)
    }

    /// Refuses a style that takes more than its limits, whatever is cited; `text` is that of the
    /// style.
    ///
    /// # Errors
    ///
    /// `Fault` where the macros of the style are too long; `LimitExceeded`; `OutOfMemory`.
    pub fn check(&self, alloc: Global, text: &[u8]) -> Result<(), CallError> {
        match check_style(alloc, &self.style, self.options.part) {
            Ok(()) => Ok(()),
            Err(error) => Err(answer_refusal(alloc, text, &self.style, error)),
        }
    }
}

/// The tag of a document's language: that of the options, or else of the style.
fn language_of(
    alloc: Global,
    options: &CallOptions,
    style: &CslStyle,
) -> Result<String, AllocError> {
    let told = options
        .language
        .as_deref()
        .or(style.default_locale.as_deref());
    usual_tag(alloc, told.unwrap_or(DEFAULT_LANGUAGE))
}

//! Documents are answered in their styles.
use cite_host::answer::{Answer, Document};
use cite_inputs::error::{CallError, answer_refusal};
use cite_inputs::styling::Styling;
use cite_locale::chain::LocaleChain;
use cite_tasks::cites::Citation;
use cite_tasks::error::AnswerError;
use cite_tasks::kept::KeptTexts;
use reference_values::reference::References;
use std::alloc::Global;

/// A document, and the texts that say how it is written.
#[derive(Clone, Copy)]
pub struct StyledDocument<'d> {
    styling: &'d Styling,
    /// The text of the style.
    text: &'d [u8],
    /// The words of the language.
    locale: &'d LocaleChain<'d>,
    /// The items that may be cited.
    references: &'d References,
    citations: &'d [Citation],
}

impl<'d> StyledDocument<'d> {
    /// Citations of these items, to be written in a style, whose text this is.
    pub fn new(
        styling: &'d Styling,
        text: &'d [u8],
        locale: &'d LocaleChain<'d>,
        references: &'d References,
        citations: &'d [Citation],
    ) -> StyledDocument<'d> {
        StyledDocument {
            styling,
            text,
            locale,
            references,
            citations,
        }
    }

    /// The citations and the bibliography.
    ///
    /// # Errors
    ///
    /// `Fault` where an item is cited that isn't there, or the macros of the style are too long;
    /// `LimitExceeded` where the style takes more than its limits; `TooManyItems`; `OutOfMemory`.
    pub fn answer(self, alloc: Global) -> Result<Answer, CallError> {
        match self.document().answer(alloc) {
            Ok(answer) => Ok(answer),
            Err(error) => Err(self.refusal(alloc, error)),
        }
    }

    /// What `answer` gives; what was written for answers before isn't written again. These were of
    /// this very styling, and each item that has changed since was forgotten.
    ///
    /// # Errors
    ///
    /// Those of `answer`.
    pub fn answer_with(self, alloc: Global, kept: &mut KeptTexts) -> Result<Answer, CallError> {
        match self.document().answer_with(alloc, kept) {
            Ok(answer) => Ok(answer),
            Err(error) => Err(self.refusal(alloc, error)),
        }
    }

    fn document(self) -> Document<'d> {
        Document {
            style: &self.styling.style,
            locale: self.locale,
            language: self.styling.language.as_str(),
            references: self.references,
            citations: self.citations,
            abbreviations: self.styling.options.abbreviations.as_ref(),
            lists_items: true,
            part: self.styling.options.part,
        }
    }

    fn refusal(self, alloc: Global, error: AnswerError) -> CallError {
        answer_refusal(alloc, self.text, &self.styling.style, error)
    }
}

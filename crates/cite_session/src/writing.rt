//! The document is written.
use crate::citations::KeyedCitations;
use crate::library::Library;
use crate::style::SessionStyle;
use crate::written::{TextWriting, WrittenTexts};
use cite_call::answering::StyledDocument;
use cite_host::answer::Answer;
use cite_inputs::error::CallError;
use cite_json::unknown::KnownItems;
use cite_locale::chain::LocaleChain;
use cite_tasks::kept::KeptTexts;
use std::alloc::Global;

/// In what a document is written.
#[derive(Clone, Copy)]
pub(crate) struct Materials<'s> {
    pub style: &'s SessionStyle,
    pub library: &'s Library,
}

impl<'s> Materials<'s> {
    /// The texts of citations, and of the items of the bibliography.
    ///
    /// # Errors
    ///
    /// `Fault` where an item is cited that isn't there, or the macros of the style are too long;
    /// `LimitExceeded` where the style takes more than its limits; `TooManyItems`; `OutOfMemory`.
    pub fn written(
        self,
        alloc: Global,
        citations: &mut KeyedCitations,
        kept: &mut KeptTexts,
    ) -> Result<WrittenTexts, CallError> {
        if self.style.styling.options.lists_all {
            citations.push_uncited(alloc, self.library)?;
        }
        let texts = self.written_all(alloc, citations, kept);
        citations.leave_out_uncited();
        texts
    }

    /// The same, where the last citation has no key if all items are listed.
    fn written_all(
        self,
        alloc: Global,
        citations: &KeyedCitations,
        kept: &mut KeptTexts,
    ) -> Result<WrittenTexts, CallError> {
        let styling = &self.style.styling;
        let locale = styling.locale(alloc)?;
        let answer = self.answered(alloc, &locale, citations, kept)?;
        let writing = TextWriting {
            form: self.style.form,
            style: &styling.style,
            citations: &citations.citations,
            marks: locale.quote_marks(),
        };
        Ok(WrittenTexts::of_answer(alloc, writing, &citations.keys, &answer)?)
    }

    /// What comes of the document in the words of a language.
    fn answered(
        self,
        alloc: Global,
        locale: &LocaleChain<'_>,
        citations: &KeyedCitations,
        kept: &mut KeptTexts,
    ) -> Result<Answer, CallError> {
        let styling = &self.style.styling;
        let text = self.style.text.as_slice();
        let references = self.library.references();
        StyledDocument::new(styling, text, locale, references, &citations.citations).answer_with(
            alloc, kept,
        )
    }
}

//! The document that the texts of a call are.
use crate::error::CallError;
use crate::reader::TextReader;
use crate::styling::Styling;
use crate::texts::CallTexts;
use cite_json::listing::uncited;
use cite_tasks::cites::Citation;
use reference_values::reference::References;

/// What the texts of a call say.
#[derive(Drop)]
pub struct CallDocument {
    pub styling: Styling,
    pub references: References,
    pub citations: Vec<Citation>,
    /// How many of the citations are the caller's, and not there to list items alone.
    pub shown: usize,
}

impl TextReader {
    /// The document that texts are.
    ///
    /// # Errors
    ///
    /// `Fault` with the first thing that is wrong: in the options, the style, the locale files, the
    /// items, or the citations; `OutOfMemory`.
    pub fn document(&mut self, texts: CallTexts<'_>) -> Result<CallDocument, CallError> {
        let styling = self.styling(texts.style, texts.locales, texts.options)?;
        let is_draft = styling.options.is_draft;
        let references = self.items(texts.items, &styling.options)?;
        let mut citations = if is_draft {
            let sorts = !styling.style.citation.sort.is_empty();
            self.drafted_citations(texts.citations, &references, sorts)?
        } else {
            self.citations(texts.citations, &references)?
        };
        let shown = citations.len();
        if styling.options.lists_all {
            let uncited = uncited(self.alloc, &references, &citations)?;
            citations.push(uncited)?;
        }
        Ok(CallDocument {
            styling,
            references,
            citations,
            shown,
        })
    }
}

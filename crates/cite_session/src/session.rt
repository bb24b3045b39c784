//! A document that is edited.
ghost use Rattle.std.specs.Prelude.{◌≡◌, OnErr};

use crate::citations::KeyedCitations;
use crate::ids::read_ids;
use crate::library::{Library, ids_of};
use crate::printing::print_changes;
use crate::style::SessionStyle;
use crate::texts::SessionTexts;
use crate::writing::Materials;
use crate::written::WrittenTexts;
use cite_inputs::citations::check_ids;
use cite_inputs::error::CallError;
use cite_inputs::findings::print_warnings;
use cite_inputs::reader::TextReader;
use cite_inputs::remark::Remark;
use cite_tasks::kept::KeptTexts;
use std::alloc::Global;

/// A document that is edited: a style, items and citations. Each answer has what changed since the
/// one before, and what didn't change isn't written again.
///
/// A call that gives an error leaves the session as it was.
#[derive(Drop)]
pub struct Session {
    style: SessionStyle,
    library: Library,
    citations: KeyedCitations,
    /// What was written in this style.
    kept: KeptTexts,
    /// What the last answer had.
    last: Option<WrittenTexts>,
    /// What is odd in the items that were put last.
    item_warnings: Vec<Remark>,
    /// What is odd in the citations.
    citation_warnings: Vec<Remark>,
    /// Cites of items that weren't there when the document was written last, where it is a draft.
    draft_warnings: Vec<Remark>,
}

impl Session {
    /// A session in a style, with no items and no citations.
    ///
    /// # Errors
    ///
    /// `Fault` with the first thing that is wrong: in the options, the style or the locale files;
    /// `LimitExceeded` where the style takes more than its limits; `OutOfMemory`.
    pub fn open(alloc: Global, texts: SessionTexts<'_>) -> Result<Session, CallError> {
        Ok(Session {
            style: SessionStyle::read(alloc, texts)?,
            library: Library::new(alloc),
            citations: KeyedCitations::new(alloc),
            kept: KeptTexts::new(alloc),
            last: None,
            item_warnings: Vec::new(alloc),
            citation_warnings: Vec::new(alloc),
            draft_warnings: Vec::new(alloc),
        })
    }

    /// From now on the document is written in another style, with its own locales and options.
    ///
    /// # Errors
    ///
    /// Those of `open`.
    pub fn set_style(&mut self, alloc: Global, texts: SessionTexts<'_>) -> Result<(), CallError>
        ensures stays { OnErr result (self.new ≡ self.old) }
        ensures rest { self.new ≡ record self.old { style = self.new.style; kept = self.new.kept } }
    {
        self.style = SessionStyle::read(alloc, texts)?;
        self.kept = KeptTexts::new(alloc);
        Ok(())
    }

    /// Puts items of CSL-JSON, BibTeX, BibLaTeX or RIS (`TextReader::items`). Each is new, or
    /// stands in place of the one with its id. One that was removed is put in the place that it
    /// had. In a draft, an item with a fault is left out, with a warning.
    ///
    /// # Errors
    ///
    /// `Fault` where the text is none; `OutOfMemory`.
    pub fn put_items(&mut self, alloc: Global, items: &[u8]) -> Result<(), CallError>
        ensures stays { OnErr result (self.new ≡ record self.old { library = self.new.library }) }
    {
        let mut reader = TextReader::new(alloc);
        let options = &self.style.styling.options;
        let items = reader.items(items, options)?.into_vec();
        let ids = ids_of(alloc, &items)?;
        self.library.put(alloc, items, &ids)?;
        self.forget(&ids);
        self.item_warnings = reader.warnings;
        Ok(())
    }

    /// Removes the items of a JSON list of ids, which are texts or numbers; ids without an item are
    /// ignored.
    ///
    /// # Errors
    ///
    /// `Fault` where the text is no such list; `OutOfMemory`.
    pub fn remove_items(&mut self, alloc: Global, ids: &[u8]) -> Result<(), CallError>
        ensures stays { OnErr result (self.new ≡ record self.old { library = self.new.library }) }
    {
        let ids = read_ids(alloc, ids)?;
        self.library.remove(alloc, &ids)?;
        self.forget(&ids);
        Ok(())
    }

    /// Puts the citations of a JSON list (`cite_json::reading::read_citations`) in place of all
    /// others. The key of a citation is its `citationID`, or else its place in the list, from 0.
    ///
    /// # Errors
    ///
    /// `Fault` where the text is no such list, or two citations have one key; `OutOfMemory`.
    pub fn set_citations(&mut self, alloc: Global, citations: &[u8]) -> Result<(), CallError>
        ensures stays { OnErr result (self.new ≡ self.old) }
    {
        let mut reader = TextReader::new(alloc);
        let read = reader.citations_of_any(citations)?;
        self.citations = KeyedCitations::of_read(alloc, read)?;
        self.citation_warnings = reader.warnings;
        Ok(())
    }

    /// What changed since the last answer, as a JSON object. `citations` has a list `changed` of
    /// those whose text is another one or new, each with its `key` and its `text`; a list `gone` of
    /// the keys that are gone; and a list `keys` of all keys, in their order, where that is another
    /// than last time. `bibliography` has the same, with `id` and `ids`, where the style has one.
    /// In the form `json`, `citation` and `item` stand in place of `text`, as the JSON of an answer
    /// has them (docs/ANSWER.md), and `bibliography` says how items are laid out.
    ///
    /// In a draft, a cite of an item that isn't there is its id in bold letters, with a question
    /// mark. It stands before the cite that followed it, or behind the others where the style sorts
    /// cites; it has no number, and is in no list.
    ///
    /// # Errors
    ///
    /// `Fault` where an item is cited that isn't there, except in a draft, or the macros of the
    /// style are too long; `LimitExceeded` where the style takes more than its limits;
    /// `TooManyItems`; `OutOfMemory`.
    pub fn answer(&mut self, alloc: Global) -> Result<String, CallError> {
        let texts = self.written(alloc)?;
        let printed = print_changes(alloc, &self.style, self.last.as_ref(), &texts)?;
        self.last = Some(texts);
        Ok(printed)
    }

    /// What `answer` gives where there was no answer before: all citations and items.
    ///
    /// # Errors
    ///
    /// Those of `answer`.
    pub fn whole(&mut self, alloc: Global) -> Result<String, CallError> {
        let texts = self.written(alloc)?;
        let printed = print_changes(alloc, &self.style, None, &texts)?;
        self.last = Some(texts);
        Ok(printed)
    }

    /// What was read otherwise than it stands in the texts: of the style, of the items that were
    /// put last, and of the citations; and where the document is a draft, the cites of items that
    /// weren't there at the last answer, each with the id that is nearest. It is a JSON object with
    /// a list `warnings`, as `cite_call::calling::find_fault` has it.
    ///
    /// # Errors
    ///
    /// `OutOfMemory`, and no other.
    pub fn warnings(&self, alloc: Global) -> Result<String, CallError> {
        let lists = [
            self.style.warnings.as_slice(),
            self.item_warnings.as_slice(),
            self.citation_warnings.as_slice(),
            self.draft_warnings.as_slice(),
        ];
        Ok(print_warnings(alloc, &lists)?)
    }

    /// What was written of these items isn't used again.
    fn forget(&mut self, ids: &[String]) {
        for id in ids {
            self.kept.forget(id.as_str());
        }
    }

    /// The texts of the document.
    fn written(&mut self, alloc: Global) -> Result<WrittenTexts, CallError> {
        if self.style.styling.options.is_draft {
            return self.written_draft(alloc);
        }
        check_ids(alloc, &self.citations.citations, &self.library)?;
        let materials = Materials {
            style: &self.style,
            library: &self.library,
        };
        let texts = materials.written(alloc, &mut self.citations, &mut self.kept)?;
        self.draft_warnings = Vec::new(alloc);
        Ok(texts)
    }

    /// The texts of a document that is a draft.
    fn written_draft(&mut self, alloc: Global) -> Result<WrittenTexts, CallError> {
        let mut reader = TextReader::new(alloc);
        reader.warn_of_unknown(&self.citations.citations, &self.library)?;
        let sorts = !self.style.styling.style.citation.sort.is_empty();
        let mut drafted = self.citations.drafted(alloc, &self.library, sorts)?;
        let materials = Materials {
            style: &self.style,
            library: &self.library,
        };
        let texts = materials.written(alloc, &mut drafted, &mut self.kept)?;
        self.draft_warnings = reader.warnings;
        Ok(texts)
    }
}

//! The citations and the bibliography of a document.
use crate::driven::driven_style;
use crate::joining::{in_layout, joined};
use crate::requests::{Driver, bibliography_request, filled_driver, locators_of};
use cite_collation::alphabets::Alphabet;
use cite_limits::budget::Budget;
use cite_limits::cost::Cost;
use cite_locale::chain::LocaleChain;
use cite_pieces::pieces::Pieces;
use cite_pieces::punctuation::punctuated;
use cite_tasks::cites::Citation;
use cite_tasks::entries::{Items, cited_references};
use cite_tasks::error::AnswerError;
use cite_tasks::kept::KeptTexts;
use cite_tasks::limits::{budget_of, programs_within, spend_around};
use cite_tasks::setting::Setting;
use cite_tasks::sorting::{SortedCitation, sorted_citations};
use cite_tasks::writer::TaskWriter;
use cite_trees::streams::{cites_of, stream_of, stream_of_child};
use cite_walk::abbreviations::Abbreviations;
use cite_walk::cite::Explaining;
use csl_base::entry::PlainEntry;
use csl_base::style::IndependentStyle;
use csl_driver::error::{DriverError, FinishError};
use csl_driver::rendered::{BibliographyItem, Rendered, RenderedBibliography, RenderedCitation};
use host_memo::memo::Memo;
use reference_values::reference::{Reference, References};
use std::alloc::{AllocError, Global};
use style_file::style::{CslStyle, StyleClass};

/// A document.
#[derive(Clone, Copy)]
pub struct Document<'d> {
    pub style: &'d CslStyle,
    pub locale: &'d LocaleChain<'d>,
    /// The tag of its language, as `sv-SE`: texts are sorted by its alphabet.
    pub language: &'d str,
    pub references: &'d References,
    pub citations: &'d [Citation],
    /// Short forms of texts, where there are some beside those of the references.
    pub abbreviations: Option<&'d Abbreviations>,
    /// Whether the items of the bibliography are wanted. Order, numbers and suffixes follow it in
    /// any case.
    pub lists_items: bool,
    /// What the style may take for each cite and each item, and forty times for the document.
    pub part: Cost,
}

/// What comes of a document.
#[derive(Drop)]
pub struct Answer {
    /// A citation for each of the document, in its order; empty where nothing of it shows. Each
    /// cite is marked as an entry, by its place in the citation of the document.
    pub citations: Vec<Pieces>,
    /// The bibliography; absent where the style has none, or it isn't wanted.
    pub bibliography: Option<Vec<ListedItem>>,
}

/// An item of the bibliography.
#[derive(Drop)]
pub struct ListedItem {
    pub id: String,
    /// What stands in its first field, where that is set apart.
    pub first_field: Option<Pieces>,
    pub content: Pieces,
}

impl<'d> Document<'d> {
    /// The citations and the bibliography, written in the style.
    ///
    /// # Errors
    ///
    /// `NoReference` where an item is cited that isn't there; `StyleTooLong` where the macros of
    /// the style make a layout too long; `LimitExceeded` where the style takes more than its budget
    /// has; `TooManyItems`; `OutOfMemory`.
    pub fn answer(&self, alloc: Global) -> Result<Answer, AnswerError> {
        self.answer_with(alloc, &mut KeptTexts::of_one_answer(alloc))
    }

    /// What `answer` gives; what was written for answers before isn't written again. These were in
    /// the same style, language, locale files and short forms, with the same `lists_items` and
    /// `part`, and each item that has changed since was forgotten.
    ///
    /// # Errors
    ///
    /// Those of `answer`; then `kept` may have lost what it had.
    pub fn answer_with(&self, alloc: Global, kept: &mut KeptTexts) -> Result<Answer, AnswerError> {
        self.answer_explaining(alloc, kept, Explaining::Nothing)
    }

    /// What `answer` gives, in whose streams `step_mark` marks what each step wrote: in those of
    /// citations the steps of the program of the citation's layout, and in those of items the steps
    /// of that of the bibliography's.
    ///
    /// # Errors
    ///
    /// Those of `answer`.
    pub fn explained_answer(&self, alloc: Global) -> Result<Answer, AnswerError> {
        let mut kept = KeptTexts::of_one_answer(alloc);
        self.answer_explaining(alloc, &mut kept, Explaining::Steps)
    }

    fn answer_explaining(
        &self,
        alloc: Global,
        kept: &mut KeptTexts,
        explaining: Explaining,
    ) -> Result<Answer, AnswerError> {
        kept.begin_answer();
        let cited = cited_references(alloc, self.references, self.citations)?;
        let budget = self.budget(&cited);
        let programs = programs_within(alloc, self.style, &budget)?;
        let setting = Setting {
            style: self.style,
            locale: self.locale,
            alphabet: Alphabet::of_tag(self.language),
            programs: &programs,
            abbreviations: self.abbreviations,
            explaining,
            budget: &budget,
        };
        self.answer_in(alloc, setting, cited, kept)
    }

    /// What the document may take, which cites these items.
    fn budget(&self, cited: &[&Reference]) -> Budget {
        budget_of(
            self.style,
            self.part,
            self.references,
            self.citations,
            cited,
        )
    }

    /// The citations and the bibliography of these items.
    fn answer_in(
        &self,
        alloc: Global,
        setting: Setting<'_>,
        cited: Vec<&'d Reference>,
        kept: &mut KeptTexts,
    ) -> Result<Answer, AnswerError> {
        spend_around(self.style, setting.budget, self.citations, &cited)?;
        let items = Items::in_order(alloc, setting, cited, kept)?;
        let citations = sorted_citations(alloc, setting, &items, self.citations)?;
        let rendered = self.rendered(alloc, setting, &items, &citations, kept)?;
        self.finished(alloc, rendered, &items, &citations)
    }

    /// What the driver answers, in a style of its own.
    fn rendered(
        &self,
        alloc: Global,
        setting: Setting<'_>,
        items: &Items<'d>,
        citations: &[SortedCitation<'d>],
        kept: &mut KeptTexts,
    ) -> Result<Rendered, AnswerError> {
        let style = driven_style(alloc, self.style, self.has_notes(setting))?;
        let own = kept.taken(alloc);
        let writer = TaskWriter::new(alloc, setting, items, citations, self.lists_items, own);
        rendered_in(alloc, &style, items, writer, kept)
    }

    /// Whether the driver gets the numbers of notes: the style asks where cites stand, and it is
    /// one of notes, or citations have numbers.
    fn has_notes(&self, setting: Setting<'_>) -> bool {
        setting.programs.asked_place.cites
            && (self.style.class == StyleClass::Note
                || self
                    .citations
                    .iter()
                    .any(|citation| citation.note.is_some()))
    }

    /// The answer as streams, with their punctuation in order.
    fn finished(
        &self,
        alloc: Global,
        rendered: Rendered,
        items: &Items<'d>,
        sorted: &[SortedCitation<'d>],
    ) -> Result<Answer, AnswerError> {
        let Rendered {
            bibliography,
            citations,
        } = rendered;
        let citations = self.streams(alloc, citations.into_vec(), sorted)?;
        let bibliography = self.listed(alloc, bibliography, items)?;
        Ok(Answer {
            citations,
            bibliography,
        })
    }

    /// The citations as streams. The tree of each is dropped as its stream is made.
    fn streams(
        &self,
        alloc: Global,
        rendered: Vec<RenderedCitation>,
        sorted: &[SortedCitation<'d>],
    ) -> Result<Vec<Pieces>, AllocError> {
        let mut citations = Vec::new(alloc);
        for (place, citation) in rendered.into_iter().enumerate() {
            if let Some(asked) = self.citations.get(place) {
                let places = places_at(sorted, place);
                citations.push(self.citation(alloc, &citation, places, asked)?)?;
            }
        }
        Ok(citations)
    }

    /// A citation as a stream; its cites have these places in the document.
    fn citation(
        &self,
        alloc: Global,
        citation: &RenderedCitation,
        places: &[usize],
        asked: &Citation,
    ) -> Result<Pieces, AllocError> {
        let cites = cites_of(alloc, &citation.citation)?;
        let layout = &self.style.citation.layout;
        let stream = joined(alloc, layout, asked, cites, places)?;
        let stream = self.enclosed(alloc, stream, asked)?;
        punctuated(alloc, stream, self.locale.has_punctuation_in_quotes())
    }

    /// A citation between the affixes of the layout, where something of it shows and no cite of
    /// it is of the author alone.
    fn enclosed(
        &self,
        alloc: Global,
        stream: Pieces,
        asked: &Citation,
    ) -> Result<Pieces, AllocError> {
        if stream.has_no_text() || asked.has_author_alone() {
            return Ok(stream);
        }
        let layout = &self.style.citation.layout;
        let prefix = Pieces::of_str(alloc, layout.affixes.prefix.as_str())?;
        let suffix = Pieces::of_str(alloc, layout.affixes.suffix.as_str())?;
        let mut out = in_layout(alloc, layout, prefix)?;
        out.push_pieces(stream)?;
        out.push_pieces(in_layout(alloc, layout, suffix)?)?;
        Ok(out)
    }

    /// The items of a bibliography, where they are wanted.
    fn listed(
        &self,
        alloc: Global,
        bibliography: Option<RenderedBibliography>,
        items: &Items<'d>,
    ) -> Result<Option<Vec<ListedItem>>, AllocError> {
        let Some(bibliography) = bibliography else {
            return Ok(None);
        };
        if !self.lists_items {
            return Ok(None);
        }
        let in_quotes = self.locale.has_punctuation_in_quotes();
        let mut listed = Vec::new(alloc);
        for item in bibliography.items.into_vec() {
            let id = items.keyed_id(item.key.as_str()).unwrap_or("");
            listed.push(listed_item(alloc, id, &item, in_quotes)?)?;
        }
        Ok(Some(listed))
    }
}

/// The item of this id, as streams.
fn listed_item(
    alloc: Global,
    id: &str,
    item: &BibliographyItem,
    in_quotes: bool,
) -> Result<ListedItem, AllocError> {
    let first_field = match &item.first_field {
        Some(field) => {
            let stream = stream_of_child(alloc, field)?;
            Some(punctuated(alloc, stream, in_quotes)?)
        }
        None => None,
    };
    let content = stream_of(alloc, &item.content)?;
    Ok(ListedItem {
        id: String::from_str(alloc, id)?,
        first_field,
        content: punctuated(alloc, content, in_quotes)?,
    })
}

/// The places that the cites of a citation have in the document.
fn places_at<'s>(sorted: &'s [SortedCitation<'_>], place: usize) -> &'s [usize] {
    match sorted.get(place) {
        Some(citation) => citation.places.as_slice(),
        None => &[],
    }
}

/// What the driver answers in this style. What the writer wrote is kept.
fn rendered_in<'e>(
    alloc: Global,
    style: &'e IndependentStyle,
    items: &'e Items<'_>,
    writer: TaskWriter<'_, '_, '_>,
    kept: &mut KeptTexts,
) -> Result<Rendered, AnswerError> {
    let locators = locators_of(alloc, writer.citations)?;
    let driver = filled_driver(alloc, &*style, &*items, writer.citations, &locators)?;
    let mut order = Vec::new(alloc);
    for entry in &items.entries {
        order.push(entry)?;
    }
    let mut memo = Memo::new(alloc, writer);
    let rendered = rendered_by(&driver, style, &order, &mut memo);
    *kept = memo.source.kept.taken(alloc);
    rendered
}

/// What the driver answers, with the entries of the bibliography in this order.
fn rendered_by<'e>(
    driver: &Driver<'e>,
    style: &IndependentStyle,
    order: &[&'e PlainEntry],
    memo: &mut Memo<TaskWriter<'_, '_, '_>>,
) -> Result<Rendered, AnswerError> {
    let request = bibliography_request(style, order);
    match driver.answer_csl_with(&request, memo) {
        Ok((rendered, _account)) => Ok(rendered),
        Err(FinishError::Driver(error)) => Err(refused(error)),
        Err(FinishError::Writer(error)) => Err(AnswerError::from(error)),
    }
}

/// Why the driver gives no answer. A style of a document has no macros for it.
fn refused(error: DriverError) -> AnswerError {
    match error {
        DriverError::MacroRing { .. } | DriverError::NumberOverflow => AnswerError::TooManyItems,
        DriverError::OutOfMemory(_) => AnswerError::OutOfMemory,
    }
}

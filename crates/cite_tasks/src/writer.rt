//! What the driver asks for is written.
use crate::entries::Items;
use crate::kept::{KeptTexts, KnownCite, ListedState, TextKey, TextState};
use crate::programs::BibliographyProgram;
use crate::setting::Setting;
use crate::sorting::SortedCitation;
use crate::wording::{Around, author_alone, begins_sentence, with_affixes, with_capital_term};
use cite_limits::cost::Cost;
use cite_limits::error::{LimitError, StylePlace};
use cite_pieces::formatting::TextFormatting;
use cite_pieces::marked::with_field_marks;
use cite_pieces::output::{AffixPlace, Element, written};
use cite_pieces::piece::Mark;
use cite_pieces::pieces::Pieces;
use cite_pieces::punctuation::{punctuated, punctuated_but_names};
use cite_trees::trees::tree_of;
use cite_walk::cite::{CiteFacts, Explaining, WrittenCite};
use cite_walk::walk::write_cite;
use csl_base::elem::ElemChildren;
use csl_base::names::NameDisambiguationProperties;
use csl_base::seq::Seq;
use driver_lookup::purpose::CitePurpose;
use driver_lookup::state::{CollapseVerdict, IdentifierUsage};
use driver_writers::cite as driver;
use host_memo::key::{Standing, TaskKey, TaskPart};
use host_memo::source::Source;
use std::alloc::{AllocError, Global};
use std::mem::replace;
use style_file::sections::Layout;
use style_file::style::StyleClass;

/// Writes the tasks of a document.
#[derive(Drop)]
pub struct TaskWriter<'s, 'i, 'd> {
    pub alloc: Global,
    pub setting: Setting<'s>,
    pub items: &'i Items<'d>,
    pub citations: &'i [SortedCitation<'d>],
    /// Whether the items of the bibliography are wanted.
    lists_items: bool,
    /// What was written, by this answer and others.
    pub kept: KeptTexts,
}

/// What marks the first field of an item as a whole: the driver sets apart what is marked first.
const FIRST_FIELD: Mark = Mark::Entry(0);

/// A cite that is asked for.
#[derive(Clone, Copy)]
pub(crate) struct Asked<'k> {
    /// The place of its item.
    pub item: usize,
    /// Its citation and its own place there, where it is written for the last time.
    pub shown: Option<(usize, usize)>,
    pub standing: &'k Standing,
    pub purpose: Option<CitePurpose>,
    pub verdict: Option<CollapseVerdict>,
}

impl<'s, 'i, 'd> Source for TaskWriter<'s, 'i, 'd> {
    type Error = LimitError;

    fn write(&mut self, alloc: Global, key: &TaskKey) -> Result<driver::Cite, LimitError> {
        let Some(item) = self.items.keyed_place(key.entry.as_str()) else {
            return Ok(nothing(alloc));
        };
        match &key.part {
            TaskPart::Cite(standing, purpose, verdict) => self.write_cite(Asked {
                item,
                shown: key.place,
                standing,
                purpose: *purpose,
                verdict: *verdict,
            }),
            TaskPart::Item(standing) if self.lists_items => self.write_item(item, standing),
            TaskPart::Item(_) | TaskPart::Date(_) => Ok(nothing(alloc)),
        }
    }
}

impl<'s, 'i, 'd> TaskWriter<'s, 'i, 'd> {
    /// A writer that has written what is kept.
    pub fn new(
        alloc: Global,
        setting: Setting<'s>,
        items: &'i Items<'d>,
        citations: &'i [SortedCitation<'d>],
        lists_items: bool,
        kept: KeptTexts,
    ) -> TaskWriter<'s, 'i, 'd> {
        TaskWriter {
            alloc,
            setting,
            items,
            citations,
            lists_items,
            kept,
        }
    }

    /// Writes a cite; a plain one that was written alike isn't written again.
    fn write_cite(&mut self, asked: Asked<'_>) -> Result<driver::Cite, LimitError> {
        let Some((item, plain)) = self.plain_cite(asked)? else {
            return Ok(self.write_anew(asked)?.cite);
        };
        if asked.shown.is_some() {
            self.write_shown(asked, (item, TextState::Shown(plain)))
        } else {
            self.write_compared(asked, (item, TextState::Compared(plain)))
        }
    }

    /// Writes a plain cite that is compared.
    fn write_compared(
        &mut self,
        asked: Asked<'_>,
        compared: TextKey,
    ) -> Result<driver::Cite, LimitError> {
        if let Some(known) = self.kept.get(&compared) {
            return known.copied(self.setting.budget, StylePlace::Citation);
        }
        let known = self.write_anew(asked)?;
        Ok(self.kept.keep(compared, known)?)
    }

    /// Writes a plain cite that is shown, by what was compared of it, if that was written.
    fn write_shown(
        &mut self,
        asked: Asked<'_>,
        shown: TextKey,
    ) -> Result<driver::Cite, LimitError> {
        let budget = self.setting.budget;
        if let Some(known) = self.kept.get(&shown) {
            return known.copied(budget, StylePlace::Citation);
        }
        let (item, state) = shown;
        let compared = (item, state.compared());
        let known = match self.kept.get(&compared) {
            Some(known) => known.shown(self.alloc, budget)?,
            None => self.write_anew(asked)?,
        };
        let (_, state) = compared;
        Ok(self.kept.keep((item, state.shown()), known)?)
    }

    /// Writes a cite by the layout, with the words that stand around it.
    fn write_anew(&self, asked: Asked<'_>) -> Result<KnownCite, LimitError> {
        let Some(facts) = self.cite_facts(asked) else {
            return Ok(KnownCite::new(nothing(self.alloc), Cost::NOTHING));
        };
        let cite = write_cite(self.alloc, self.setting.cite_scene(), facts)?;
        let cost = cite.cost;
        Ok(KnownCite::new(self.finished(asked, cite)?, cost))
    }

    /// A cite that was written, as it is shown or compared.
    fn finished(&self, asked: Asked<'_>, cite: WrittenCite) -> Result<driver::Cite, AllocError> {
        let mut cite = cite;
        let pieces = replace(&mut cite.pieces, Pieces::new(self.alloc));
        let pieces = for_purpose(self.alloc, asked.purpose, pieces)?;
        cite.pieces = self.worded(asked, self.with_quotes_of_fields(pieces)?)?;
        if asked.shown.is_some() && self.setting.explaining == Explaining::Nothing {
            leave_out_marks(self.alloc, &mut cite)?;
        }
        let formatting = self.setting.style.citation.layout.formatting;
        let pieces = replace(&mut cite.pieces, Pieces::new(self.alloc));
        cite.pieces = punctuated(self.alloc, pieces, self.has_punctuation_in_quotes())?;
        self.told(cite, TextFormatting::NORMAL.with(formatting))
    }

    fn has_punctuation_in_quotes(&self) -> bool {
        self.setting.locale.has_punctuation_in_quotes()
    }

    /// A cite with the words that stand around it where it is shown.
    fn worded(&self, asked: Asked<'_>, pieces: Pieces) -> Result<Pieces, AllocError> {
        let Some((citation, own)) = asked.shown else {
            return Ok(pieces);
        };
        let Some(cite) = self.shown_cite(asked) else {
            return Ok(pieces);
        };
        let is_in_note = self.setting.style.class == StyleClass::Note;
        let pieces = if is_in_note && begins_sentence(cite, own) {
            with_capital_term(self.alloc, pieces)?
        } else {
            pieces
        };
        let begins_note = is_in_note && own == 0 && self.is_alone(citation);
        let around = Around {
            prefix: cite.prefix.as_str(),
            suffix: cite.suffix.as_str(),
        };
        with_affixes(self.alloc, pieces, around, begins_note)
    }

    /// Whether nothing else stands in the note of a citation.
    fn is_alone(&self, citation: usize) -> bool {
        match self.citations.get(citation) {
            Some(citation) => citation.is_alone,
            None => false,
        }
    }

    /// Writes an item of the bibliography; one that was written alike isn't written again, where
    /// items are kept.
    fn write_item(&mut self, item: usize, standing: &Standing) -> Result<driver::Cite, LimitError> {
        let (Some(facts), Some(bibliography)) = (
            self.item_facts(item, standing),
            self.setting.bibliography(),
        ) else {
            return Ok(nothing(self.alloc));
        };
        let Some(listed) = self.listed_key(bibliography, item, &facts) else {
            return Ok(self.write_item_anew(bibliography, facts)?.cite);
        };
        if let Some(known) = self.kept.get(&listed) {
            return known.copied(self.setting.budget, StylePlace::Bibliography);
        }
        let known = self.write_item_anew(bibliography, facts)?;
        Ok(self.kept.keep(listed, known)?)
    }

    /// All that the text of an item depends on, where items are kept.
    fn listed_key(
        &self,
        bibliography: &BibliographyProgram<'_>,
        item: usize,
        facts: &CiteFacts<'_>,
    ) -> Option<TextKey> {
        if !self.kept.keeps_items() {
            return None;
        }
        let number = if bibliography.reads_number {
            Some(facts.number)
        } else {
            None
        };
        let state = ListedState {
            number,
            disambiguates: facts.disambiguates,
            year_suffix: facts.year_suffix,
        };
        Some((self.items.version(item)?, TextState::Listed(state)))
    }

    /// Writes an item of the bibliography, with the affixes of its layout.
    fn write_item_anew(
        &self,
        bibliography: &'s BibliographyProgram<'s>,
        facts: CiteFacts<'_>,
    ) -> Result<KnownCite, LimitError> {
        let listed = write_cite(self.alloc, self.setting.item_scene(bibliography), facts)?;
        let cost = listed.cost;
        Ok(KnownCite::new(self.listed(bibliography, listed)?, cost))
    }

    /// An item that was written, as it is listed.
    fn listed(
        &self,
        bibliography: &BibliographyProgram<'_>,
        listed: WrittenCite,
    ) -> Result<driver::Cite, AllocError> {
        let mut listed = listed;
        let pieces = replace(&mut listed.pieces, Pieces::new(self.alloc));
        let layout = &bibliography.section.layout;
        let pieces = if bibliography.section.options.second_field_align.is_some() {
            self.with_first_field(layout, pieces, listed.first_pieces)?
        } else {
            self.in_layout(layout, pieces)?
        };
        listed.pieces = punctuated_but_names(self.alloc, pieces, self.has_punctuation_in_quotes())?;
        self.told(listed, TextFormatting::NORMAL)
    }

    /// An item in its layout, whose first field is so many pieces; with the affixes of the layout
    /// where it has no other field.
    fn with_first_field(
        &self,
        layout: &Layout,
        pieces: Pieces,
        first_pieces: usize,
    ) -> Result<Pieces, AllocError> {
        if first_pieces < pieces.as_slice().len() {
            let marked = pieces.with_first_marked(self.alloc, first_pieces, FIRST_FIELD)?;
            return self.in_layout(layout, marked);
        }
        let item = self.in_layout(layout, pieces)?;
        let all_pieces = item.as_slice().len();
        item.with_first_marked(self.alloc, all_pieces, FIRST_FIELD)
    }

    /// An item in the formatting and the affixes of its layout, where it has text.
    fn in_layout(&self, layout: &Layout, item: Pieces) -> Result<Pieces, AllocError> {
        let pieces = self.with_quotes_of_fields(item)?;
        if pieces.has_no_text() {
            return Ok(pieces);
        }
        let element = Element {
            prefix: layout.affixes.prefix.as_str(),
            suffix: layout.affixes.suffix.as_str(),
            affixes: AffixPlace::Inside,
            formatting: layout.formatting,
            ..Element::PLAIN
        };
        written(self.alloc, element, pieces, self.setting.locale.language())
    }

    /// The stream of a cite or an item in which quotes of fields have their marks, before words of
    /// others stand around it.
    fn with_quotes_of_fields(&self, pieces: Pieces) -> Result<Pieces, AllocError> {
        with_field_marks(self.alloc, pieces, self.setting.locale.quote_marks())
    }

    /// What the driver gets of a cite in text of this formatting.
    fn told(&self, cite: WrittenCite, around: TextFormatting) -> Result<driver::Cite, AllocError> {
        let WrittenCite {
            pieces,
            first_pieces: _,
            names,
            first_forms,
            has_tested_disambiguate,
            usage,
            cost: _,
        } = cite;
        let first_name = match first_forms {
            Some(forms) => Some(NameDisambiguationProperties {
                forms: Seq::new(forms),
            }),
            None => None,
        };
        Ok(driver::Cite {
            children: tree_of(self.alloc, pieces, around, names.as_slice())?,
            checked_disambiguate: has_tested_disambiguate,
            first_name,
            identifier_usage: usage,
        })
    }
}

/// Leaves out the marks of the parts of a cite: of one that is shown the driver asks nothing.
fn leave_out_marks(alloc: Global, cite: &mut WrittenCite) -> Result<(), AllocError> {
    let pieces = replace(&mut cite.pieces, Pieces::new(alloc));
    cite.pieces = pieces.without_marks(alloc)?;
    cite.first_forms = None;
    Ok(())
}

/// What of a cite is shown for a purpose.
fn for_purpose(
    alloc: Global,
    purpose: Option<CitePurpose>,
    pieces: Pieces,
) -> Result<Pieces, AllocError> {
    if purpose == Some(CitePurpose::Author) {
        author_alone(alloc, pieces)
    } else {
        Ok(pieces)
    }
}

/// A cite that writes nothing.
fn nothing(alloc: Global) -> driver::Cite {
    driver::Cite {
        children: ElemChildren::new(alloc),
        checked_disambiguate: false,
        first_name: None,
        identifier_usage: IdentifierUsage::None,
    }
}

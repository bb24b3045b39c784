//! What is known of a cite when it is written.
use crate::cites::Cite;
use crate::facts::first_cite;
use crate::writer::{Asked, TaskWriter};
use cite_walk::cite::{CiteFacts, Repetition};
use csl_base::names::DisambiguatedNameForm;
use driver_lookup::means::{Means, is_chosen, suffix_told};
use driver_lookup::state::{CollapseVerdict, IbidState};
use host_memo::key::Standing;

impl<'s, 'i, 'd> TaskWriter<'s, 'i, 'd> {
    /// What is known of a cite, if its item is there.
    pub(crate) fn cite_facts<'f, 'k: 'f>(&'f self, asked: Asked<'k>) -> Option<CiteFacts<'f>> {
        let reference = self.items.reference(asked.item)?;
        let standing = asked.standing;
        let locator = match self.shown_cite(asked) {
            Some(cite) => cite.locator.as_ref(),
            None => None,
        };
        Some(CiteFacts {
            reference,
            locator,
            number: self.printed_number(standing.citation_number),
            is_first: standing.is_first,
            is_near_note: standing.is_near_note,
            repetition: repetition(standing),
            first_note_number: standing.first_note_number,
            disambiguates: is_chosen(&standing.disambiguation, &standing.means),
            year_suffix: suffix_told(&standing.disambiguation, &standing.means),
            name_forms: name_forms(&standing.means),
            leaves_out_names: asked.verdict.is_some() || self.suppresses_author(asked),
            is_cut_to_suffix: asked.verdict == Some(CollapseVerdict::YearSuffix),
        })
    }

    /// What is known of an item, if it is there.
    pub(crate) fn item_facts(&self, item: usize, standing: &Standing) -> Option<CiteFacts<'d>> {
        let reference = self.items.reference(item)?;
        let number = self.printed_number(standing.citation_number);
        Some(CiteFacts {
            disambiguates: is_chosen(&standing.disambiguation, &standing.means),
            year_suffix: suffix_told(&standing.disambiguation, &standing.means),
            ..first_cite(reference, None, number)
        })
    }

    /// The cite of the document that is written for the last time.
    pub(crate) fn shown_cite(&self, asked: Asked<'_>) -> Option<&'d Cite> {
        let (citation, cite) = asked.shown?;
        let citation = self.citations.get(citation)?;
        citation.cites.get(cite).copied()
    }

    fn suppresses_author(&self, asked: Asked<'_>) -> bool {
        match self.shown_cite(asked) {
            Some(cite) => cite.suppresses_author,
            None => false,
        }
    }

    /// The number of an item, as it is printed.
    fn printed_number(&self, number: usize) -> usize {
        match self.setting.bibliography() {
            Some(bibliography) if bibliography.counts_down => {
                self.items.entries.len().saturating_sub(number)
            }
            _ => number.saturating_add(1),
        }
    }
}

/// How a cite repeats the one before it; the first one of an item repeats none.
fn repetition(standing: &Standing) -> Option<Repetition> {
    if standing.is_first {
        return None;
    }
    match standing.ibid {
        IbidState::Different => None,
        IbidState::Ibid => Some(Repetition::Ibid),
        IbidState::IbidWithLocator => Some(Repetition::IbidWithLocator),
    }
}

/// How far the first names of a cite are to be written at least.
fn name_forms(means: &Means) -> &[DisambiguatedNameForm] {
    match &means.names {
        Some(names) => names.forms.as_slice(),
        None => &[],
    }
}

//! Cites that are written alike: that is done once.
use crate::writer::{Asked, TaskWriter};
use cite_kept::versions::Version;
use cite_walk::cite::Repetition;
use driver_lookup::means::Means;
use driver_lookup::state::CollapseVerdict;
use std::alloc::AllocError;
use style_file::style::StyleClass;

/// All that the text of a cite depends on beside its item, where it has no locator and doesn't
/// stand apart.
#[derive(PartialEq, Eq, PartialOrd, Ord, Drop)]
pub(crate) struct PlainCite {
    /// The number of its item, as it is printed, where its style asks for it.
    number: Option<usize>,
    standing: CiteStanding,
    repetition: Option<Repetition>,
    /// By what means its item is disambiguated.
    means: Means,
    verdict: Option<CollapseVerdict>,
    /// Whether it begins a note.
    begins_note: bool,
}

/// Where a cite follows others, as far as its style asks.
#[derive(Clone, Copy, PartialEq, Eq, PartialOrd, Ord)]
struct CiteStanding {
    is_first: bool,
    is_near_note: bool,
    first_note_number: Option<usize>,
}

impl<'s, 'i, 'd> TaskWriter<'s, 'i, 'd> {
    /// All that the text of a cite depends on, with the version of its item; none where it has a
    /// locator, or stands apart.
    pub(crate) fn plain_cite(
        &self,
        asked: Asked<'_>,
    ) -> Result<Option<(Version, PlainCite)>, AllocError> {
        if let Some(cite) = self.shown_cite(asked) {
            if cite.locator.is_some() || cite.apart().is_some() {
                return Ok(None);
            }
        }
        let (Some(facts), Some(item)) = (self.cite_facts(asked), self.items.version(asked.item))
        else {
            return Ok(None);
        };
        let plain = PlainCite {
            number: if self.setting.programs.asked_place.number {
                Some(facts.number)
            } else {
                None
            },
            standing: self.asked_standing(asked),
            repetition: facts.repetition,
            means: asked.standing.means.clone()?,
            verdict: asked.verdict,
            begins_note: self.begins_note(asked),
        };
        Ok(Some((item, plain)))
    }

    fn asked_standing(&self, asked: Asked<'_>) -> CiteStanding {
        let place = self.setting.programs.asked_place;
        CiteStanding {
            is_first: !place.cites || asked.standing.is_first,
            is_near_note: place.notes && asked.standing.is_near_note,
            first_note_number: if place.notes {
                asked.standing.first_note_number
            } else {
                None
            },
        }
    }

    fn begins_note(&self, asked: Asked<'_>) -> bool {
        match asked.shown {
            Some((_, own)) => own == 0 && self.setting.style.class == StyleClass::Note,
            None => false,
        }
    }
}

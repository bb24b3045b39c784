//! What is known of a cite when it is written, beside its entry.
ghost use Rattle.std.specs.Prelude.{◌≡◌, None, option_map};
ghost use Rattle.driver_lookup.specs.PropertiesView.{locator_view, speculative_view, properties_view};
ghost use Rattle.driver_lookup.specs.NoProperties.{nothing_certain, speculated};

use crate::locator::SpecificLocator;
use crate::means::Means;
use crate::state::{DisambiguateState, IbidState, IdentifierUsage};

/// What is known of a cite before anything is written.
#[derive(Clone, Copy, PartialEq, Eq, Hash, Default)]
pub struct CertainCiteProperties {
    /// The number of the note in which the cite stands; none outside of notes.
    pub note_number: Option<usize>,
    /// The number of the first note that cites the entry.
    pub first_note_number: Option<usize>,
    /// Whether a note shortly before cites the entry too (CSL 1.0.2, `near-note-distance`).
    pub is_near_note: bool,
    /// Whether no cite before cites the entry.
    pub is_first: bool,
    /// The cite's place in its request, from 0.
    pub initial_idx: usize,
}

/// What may change while cites are disambiguated and put in order.
#[derive(PartialEq, Eq, Drop)]
#[derive_where(Clone; P: Drop)]
pub struct SpeculativeCiteProperties<'a, P> {
    /// Where in the entry the cite points; none while cites are disambiguated.
    pub locator: Option<SpecificLocator<'a, P>>,
    /// The number of the entry, from 0; what is printed is one more.
    pub citation_number: usize,
    /// Whether the cite repeats the one before it.
    pub ibid: IbidState,
    /// By what means the entry is disambiguated from others, where one is taken at a time.
    pub disambiguation: DisambiguateState,
    /// By what means it is, where they are taken together.
    pub means: Means,
    /// Which identifiers the cite has written.
    pub identifier_usage: IdentifierUsage,
}

/// The properties of a cite.
#[derive(PartialEq, Eq, Drop)]
#[derive_where(Clone; P: Drop)]
pub struct CiteProperties<'a, P> {
    pub certain: CertainCiteProperties,
    pub speculative: SpeculativeCiteProperties<'a, P>,
}

impl<'a, P> SpeculativeCiteProperties<'a, P> {
    /// What is taken to hold of a cite before it was written: nothing disambiguates its entry yet,
    /// and no identifier was written.
    pub fn speculate(
        locator: Option<SpecificLocator<'a, P>>,
        citation_number: usize,
        ibid: IbidState,
    ) -> SpeculativeCiteProperties<'a, P>
        ensures { speculative_view result
            ≡ speculated (option_map locator_view locator.entry) citation_number ibid }
    {
        SpeculativeCiteProperties {
            locator,
            citation_number,
            ibid,
            disambiguation: DisambiguateState::None,
            means: Means::none(),
            identifier_usage: IdentifierUsage::None,
        }
    }
}

impl<'a, P: Drop> SpeculativeCiteProperties<'a, P> {
    /// The same without the locator, which an entry of a bibliography has none of.
    pub fn for_bibliography(self) -> SpeculativeCiteProperties<'a, P>
        ensures { speculative_view result
            ≡ record (speculative_view self.entry) { locator = None } }
    {
        SpeculativeCiteProperties {
            locator: None,
            ..self
        }
    }
}

impl<'a, P> CiteProperties<'a, P> {
    /// The properties of a cite that stands for itself: in no note, neither near another nor first,
    /// at place 0, and repeating none.
    pub fn for_sorting(
        locator: Option<SpecificLocator<'a, P>>,
        citation_number: usize,
    ) -> CiteProperties<'a, P>
        ensures { properties_view result
            ≡ record {
              certain = nothing_certain;
              speculative = speculated
                  (option_map locator_view locator.entry) citation_number IbidState.Different;
            } }
    {
        CiteProperties {
            certain: CertainCiteProperties::default(),
            speculative: SpeculativeCiteProperties::speculate(
                locator,
                citation_number,
                IbidState::Different,
            ),
        }
    }
}

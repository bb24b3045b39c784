//! How a cite stands among the others: its identifier, its disambiguation, its position.
ghost use Rattle.std.specs.Prelude.{◌≡◌};
ghost use Rattle.driver_lookup.specs.States.{
  with_label,
  with_number,
  may_get_names,
  may_get_suffix,
  year_suffix,
  greater,
};

use csl_base::names::NameDisambiguationProperties;

/// Which identifiers of its entry a cite has written.
#[derive(Clone, Copy, PartialEq, Eq, PartialOrd, Ord, Hash, Default)]
pub enum IdentifierUsage {
    /// None.
    #[default]
    None,
    /// The citation label alone.
    OnlyCitationLabel,
    /// The citation number alone.
    OnlyCitationNumber,
    /// Both the label and the number.
    Mixed,
}

impl IdentifierUsage {
    /// The usage after a citation label was written.
    pub fn label(self) -> IdentifierUsage
        ensures { result ≡ with_label self }
    {
        match self {
            IdentifierUsage::None | IdentifierUsage::OnlyCitationLabel => {
                IdentifierUsage::OnlyCitationLabel
            }
            IdentifierUsage::OnlyCitationNumber | IdentifierUsage::Mixed => IdentifierUsage::Mixed,
        }
    }

    /// The usage after a citation number was written.
    pub fn number(self) -> IdentifierUsage
        ensures { result ≡ with_number self }
    {
        match self {
            IdentifierUsage::None | IdentifierUsage::OnlyCitationNumber => {
                IdentifierUsage::OnlyCitationNumber
            }
            IdentifierUsage::OnlyCitationLabel | IdentifierUsage::Mixed => IdentifierUsage::Mixed,
        }
    }
}

/// By what means an entry is disambiguated from others whose cites read alike, from the least on
/// (CSL 1.0.2, disambiguation).
#[derive(Clone, PartialEq, Eq, PartialOrd, Ord, Hash, Default, Drop)]
pub enum DisambiguateState {
    /// By none.
    #[default]
    None,
    /// By more of its names.
    NameDisambiguation(NameDisambiguationProperties),
    /// By what the style writes where `disambiguate` is tested.
    Choose,
    /// By the letters of this suffix of the year; 0 is `a`.
    YearSuffix(usize),
}

impl DisambiguateState {
    /// Whether more of the names may still be written: in no state and in that of names.
    pub fn may_disambiguate_names(&self) -> bool
        ensures { result ≡ may_get_names self.now }
    {
        match self {
            DisambiguateState::None | DisambiguateState::NameDisambiguation(_) => true,
            DisambiguateState::Choose | DisambiguateState::YearSuffix(_) => false,
        }
    }

    /// Whether the test of `disambiguate` may still be made to hold: in the same states.
    pub fn may_disambiguate_with_choose(&self) -> bool
        ensures { result ≡ may_get_names self.now }
    {
        self.may_disambiguate_names()
    }

    /// Whether a suffix of the year may still be given: in every state but that of a suffix.
    pub fn may_disambiguate_with_year_suffix(&self) -> bool
        ensures { result ≡ may_get_suffix self.now }
    {
        match self {
            DisambiguateState::None
            | DisambiguateState::NameDisambiguation(_)
            | DisambiguateState::Choose => true,
            DisambiguateState::YearSuffix(_) => false,
        }
    }

    /// The suffix of the year that disambiguates the entry, from 0; none in another state.
    pub fn year_suffix(&self) -> Option<usize>
        ensures { result ≡ year_suffix self.now }
    {
        match self {
            DisambiguateState::YearSuffix(suffix) => Some(*suffix),
            DisambiguateState::None
            | DisambiguateState::NameDisambiguation(_)
            | DisambiguateState::Choose => None,
        }
    }

    /// The greater of the two: the later kind; of two states of names the greater list of forms, of
    /// two suffixes the greater one.
    pub fn max(self, other: DisambiguateState) -> DisambiguateState
        ensures { result ≡ greater self other }
    {
        match (self, other) {
            (DisambiguateState::None, other) => other,
            (this, DisambiguateState::None) => this,
            (DisambiguateState::NameDisambiguation(a), DisambiguateState::NameDisambiguation(b)) =>
                { DisambiguateState::NameDisambiguation(a.max(b)) }
            (DisambiguateState::NameDisambiguation(_), other) => other,
            (this, DisambiguateState::NameDisambiguation(_)) => this,
            (DisambiguateState::Choose, other) => other,
            (this, DisambiguateState::Choose) => this,
            (DisambiguateState::YearSuffix(a), DisambiguateState::YearSuffix(b)) => {
                DisambiguateState::YearSuffix(a.max(b))
            }
        }
    }
}

/// Whether a cite repeats the one before it (CSL 1.0.2, position).
#[derive(Clone, Copy, PartialEq, Eq, PartialOrd, Ord, Hash)]
pub enum IbidState {
    /// It doesn't: another entry, or only the cite before has a locator.
    Different,
    /// The same entry with another locator.
    IbidWithLocator,
    /// The same entry with the same locator.
    Ibid,
}

/// How a cite is cut behind others of the same authors (CSL 1.0.2, cite collapsing).
#[derive(Clone, Copy, PartialEq, Eq, PartialOrd, Ord, Hash)]
pub enum CollapseVerdict {
    /// To its first date.
    First,
    /// To the suffix of its year.
    YearSuffix,
}

//! The members of an ambiguous group, as name marks see them.
ghost use Rattle.std.specs.Prelude.{◌≡◌, IfOk};
ghost use Rattle.value_styles.specs.StyleView.{citation_view};
ghost use Rattle.rounds_names.specs.NamedCites.{rule_of, start};

use csl_base::entry::Person;
use csl_base::names::NameDisambiguationProperties;
use csl_base::seq::Seq;
use csl_base::style::{Citation, DisambiguationRule};
use driver_lookup::state::DisambiguateState;
use std::alloc::AllocError;

/// What name marks ask of a cite.
#[derive(Drop)]
pub struct NamedCite {
    /// The place of its request, and its own there.
    pub place: (usize, usize),
    /// The persons that its tree shows.
    pub persons: Seq<Person>,
    /// The rule by which its style adds given names, if it does.
    pub rule: Option<DisambiguationRule>,
    /// Whether its state leaves room for more names.
    pub may_be_named: bool,
    /// The forms from which more names are written, if it has any.
    pub start: Option<NameDisambiguationProperties>,
}

/// The rule by which a style adds given names, if it does.
pub(crate) fn rule_of(citation: &Citation) -> Option<DisambiguationRule>
    ensures { result ≡ rule_of (citation_view citation.now) }
{
    if citation.disambiguate_add_givenname {
        Some(citation.givenname_disambiguation_rule)
    } else {
        None
    }
}

pub(crate) fn copied(
    forms: &NameDisambiguationProperties,
) -> Result<NameDisambiguationProperties, AllocError>
    ensures { IfOk result (λ f. f ≡ forms.now) }
{
    forms.clone()
}

fn copied_or_none(
    forms: &Option<NameDisambiguationProperties>,
) -> Result<Option<NameDisambiguationProperties>, AllocError>
    ensures { IfOk result (λ f. f ≡ forms.now) }
{
    match forms {
        Some(forms) => Ok(Some(copied(forms)?)),
        None => Ok(None),
    }
}

/// The forms from which more names are written: those of a state of names, and without a state
/// those of the first render.
pub(crate) fn start_of(
    state: &DisambiguateState,
    first_name: &Option<NameDisambiguationProperties>,
) -> Result<Option<NameDisambiguationProperties>, AllocError>
    ensures { IfOk result (λ s. s ≡ start state.now first_name.now) }
{
    match state {
        DisambiguateState::None => copied_or_none(first_name),
        DisambiguateState::NameDisambiguation(forms) => Ok(Some(copied(forms)?)),
        DisambiguateState::Choose => Ok(None),
        DisambiguateState::YearSuffix(_) => Ok(None),
    }
}

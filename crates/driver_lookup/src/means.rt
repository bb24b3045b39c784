//! The means that disambiguate an entry from others where they are taken together (CSL 1.0.2,
//! disambiguation).
ghost use Rattle.std.specs.Prelude.{◌≡◌, IfOk, option_map, slice_get, unwrap_or};
ghost use Rattle.driver_lookup.specs.Means.{
  are_none,
  at_least,
  forms_in,
  is_chosen,
  names_told,
  no_means,
  raised_forms,
  suffix_told,
};

use crate::state::DisambiguateState;
use csl_base::names::{DisambiguatedNameForm, NameDisambiguationProperties};
use csl_base::seq::Seq;
use std::alloc::{AllocError, Global};

/// The means that disambiguate the entry of a cite from others, where they are taken together, as
/// CSL takes them. In the other modes there are none of these, and the one means is the state.
#[derive(PartialEq, Eq, PartialOrd, Ord, Hash, Drop)]
pub struct Means {
    /// The least forms of its first names.
    pub names: Option<NameDisambiguationProperties>,
    /// Whether the test of `disambiguate` holds.
    pub choose: bool,
    /// The suffix of its year; 0 is `a`.
    pub suffix: Option<usize>,
}

impl Means {
    /// No means.
    pub fn none() -> Means
        ensures { result ≡ no_means }
    {
        Means {
            names: None,
            choose: false,
            suffix: None,
        }
    }

    /// Whether there are none.
    pub fn are_none(&self) -> bool
        ensures { result ≡ are_none self.now }
    {
        self.names.is_none() && !self.choose && self.suffix.is_none()
    }
}

fn copied_names(
    names: &Option<NameDisambiguationProperties>,
) -> Result<Option<NameDisambiguationProperties>, AllocError>
    ensures { IfOk result (λ n. n ≡ names.now) }
{
    match names {
        Some(names) => Ok(Some(names.clone()?)),
        None => Ok(None),
    }
}

impl Clone for Means {
    ghost is_clone = { λ m copy. copy ≡ m };

    /// An equal copy. An error comes only where memory for its forms is refused.
    fn clone(&self) -> Result<Means, AllocError> {
        Ok(Means {
            names: copied_names(&self.names)?,
            choose: self.choose,
            suffix: self.suffix,
        })
    }
}

// The greater of a form and of the one that is given at its place, if any.
fn at_least(
    told: Option<&DisambiguatedNameForm>,
    form: DisambiguatedNameForm,
) -> DisambiguatedNameForm
    ensures { result ≡ at_least (option_map (λ t. t.now) told.entry) form }
{
    match told {
        Some(told) => form.max(*told),
        None => form,
    }
}

// The form at a place.
fn form_at(forms: &[DisambiguatedNameForm], i: usize) -> Option<&DisambiguatedNameForm>
    ensures { option_map (λ f. f.now) result ≡ slice_get forms.now i }
{
    forms.get(i)
}

// These forms, each at least the one that is given at its place.
fn raised_forms(
    alloc: Global,
    least: &[DisambiguatedNameForm],
    forms: &[DisambiguatedNameForm],
) -> Result<Seq<DisambiguatedNameForm>, AllocError>
    ensures { IfOk result (λ raised. raised ≡ raised_forms least.now forms.now) }
{
    let mut raised = Vec::with_capacity(alloc, forms.len())?;
    for (i, form) in forms.iter().enumerate() {
        raised.push(at_least(form_at(least, i), *form))?;
    }
    Ok(Seq::new(raised))
}

// The forms of the state, and behind these the others; none where the state isn't one of names.
fn forms_in(
    alloc: Global,
    state: &DisambiguateState,
    forms: &[DisambiguatedNameForm],
) -> Result<Option<Seq<DisambiguatedNameForm>>, AllocError>
    ensures { IfOk result (λ own. unwrap_or own forms.now ≡ forms_in state.now forms.now) }
{
    let DisambiguateState::NameDisambiguation(names) = state else {
        return Ok(None);
    };
    let own = names.forms.as_slice();
    let shared = own.len().min(forms.len());
    let mut all = Vec::with_capacity(alloc, forms.len())?;
    all.extend_from_slice(&own[..shared])?;
    all.extend_from_slice(&forms[shared..])?;
    Ok(Some(Seq::new(all)))
}

/// The forms of its names that a cite in this state and with these means is given, where the rules
/// of its style give these forms: each is at least the one that the means have at its place;
/// without names among the means the first ones are those of the state. None where neither has
/// names.
///
/// # Errors
///
/// Where memory is refused.
pub fn names_told(
    alloc: Global,
    state: &DisambiguateState,
    means: &Means,
    forms: &[DisambiguatedNameForm],
) -> Result<Option<Seq<DisambiguatedNameForm>>, AllocError>
    ensures { IfOk result
        (λ own. unwrap_or own forms.now ≡ names_told state.now means.now forms.now) }
{
    match &means.names {
        Some(least) => Ok(Some(raised_forms(alloc, least.forms.as_slice(), forms)?)),
        None => forms_in(alloc, state, forms),
    }
}

/// Whether the test of `disambiguate` holds in this state and with these means.
pub fn is_chosen(state: &DisambiguateState, means: &Means) -> bool
    ensures { result ≡ is_chosen state.now means.now }
{
    match state {
        DisambiguateState::Choose => true,
        _ => means.choose,
    }
}

/// The suffix of the year in this state and with these means, from 0.
pub fn suffix_told(state: &DisambiguateState, means: &Means) -> Option<usize>
    ensures { result ≡ suffix_told state.now means.now }
{
    match state {
        DisambiguateState::YearSuffix(suffix) => Some(*suffix),
        _ => means.suffix,
    }
}

//! Which marks count where rounds go on until none marks, and which groups wait.
ghost use Rattle.std.specs.Prelude.{
  ◌≡◌,
  ℕ,
  ◌<◌,
  ◌||◌,
  IfOk,
  false,
  filter,
  length,
  map,
  nat_eq,
  option_map,
  replicate,
  slice_index_or,
};
ghost use Rattle.std.specs.List.{list_any};
ghost use Rattle.std.specs.Option.{option_map_or};
ghost use Rattle.rounds_ambiguity.specs.Members.{member_at, state_of};
ghost use Rattle.driver_passes.specs.RendersView.{renders_view};
ghost use Rattle.rounds_rendering.specs.Gathered.{AreMarked, entry_place, is_marked};
ghost use Rattle.rounds_runs.specs.RoundMarks.{counts, raises};

use crate::states::entry_place;
use driver_lookup::state::DisambiguateState;
use driver_passes::renders::{AmbiguousGroup, Marks, SpeculativeCiteRender};
use std::alloc::{AllocError, Global};

/// The marks that count.
pub(crate) fn counting<T, P>(
    alloc: Global,
    cites: &[SpeculativeCiteRender<'_, '_, T, P>],
    marks: Marks,
) -> Result<Marks, AllocError>
    ensures { IfOk result (λ v. v.items ≡ filter (counts (renders_view cites.now)) marks.items) }
{
    let mut kept = Vec::new(alloc);
    for (place, mark) in marks {
        if counts(cites, place, &mark) {
            kept.push((place, mark))?;
        }
    }
    Ok(kept)
}

/// Whether a mark counts: it raises the state of the cite at its place.
fn counts<T, P>(
    cites: &[SpeculativeCiteRender<'_, '_, T, P>],
    place: (usize, usize),
    mark: &DisambiguateState,
) -> bool
    ensures { result ≡ counts (renders_view cites.now) (place, mark.now) }
{
    match state_at(cites, place) {
        Some(state) => raises(state, mark),
        None => false,
    }
}

/// By what the entry of the cite at a place is disambiguated, if a cite stands there.
fn state_at<'x, T, P>(
    cites: &'x [SpeculativeCiteRender<'_, '_, T, P>],
    place: (usize, usize),
) -> Option<&'x DisambiguateState>
    ensures { option_map (λ s. s.now) result
        ≡ option_map state_of (member_at (renders_view cites.now) place) }
{
    let (request, cite) = place;
    let of_request = cites.get(request)?;
    let cite = of_request.items.get(cite)?;
    Some(&cite.cite_props.speculative.disambiguation)
}

/// Whether a mark raises a state: it is the greater of the two, and another.
fn raises(state: &DisambiguateState, mark: &DisambiguateState) -> bool
    ensures { result ≡ raises state.now mark.now }
{
    match (state, mark) {
        (_, DisambiguateState::None) => false,
        (DisambiguateState::None, _) => true,
        (DisambiguateState::NameDisambiguation(a), DisambiguateState::NameDisambiguation(b)) => {
            a.cmp(b).is_lt()
        }
        (DisambiguateState::NameDisambiguation(_), _) => true,
        (_, DisambiguateState::NameDisambiguation(_)) => false,
        (DisambiguateState::Choose, DisambiguateState::YearSuffix(_)) => true,
        (_, DisambiguateState::Choose) => false,
        (DisambiguateState::YearSuffix(a), DisambiguateState::YearSuffix(b)) => *a < *b,
    }
}

/// Whether some cite of a group cites an entry that is marked.
pub(crate) fn waits(places: &[Vec<usize>], marked: &[bool], group: &AmbiguousGroup) -> bool
    ensures { result ≡ list_any
        (λ at. is_marked marked.now (entry_place (map (λ ps. ps.items) places.now) at))
        group.now.items }
{
    for at in group {
        if is_marked(marked, entry_place(places, *at)) {
            return true;
        }
    }
    false
}

/// Whether the entry at a place is marked, if there is one.
fn is_marked(marked: &[bool], place: Option<usize>) -> bool
    ensures { result ≡ is_marked marked.now place }
{
    match place {
        Some(place) if place < marked.len() => marked[place],
        _ => false,
    }
}

/// Notes that the entries of these marks are marked.
pub(crate) fn note(places: &[Vec<usize>], marked: &mut [bool], marks: &Marks)
    ensures long { length marked.new ≡ length marked.old }
    ensures noted { AreMarked (map (λ ps. ps.items) places.now) marks.now.items marked.old
        marked.new }
{
    for mark in marks {
        note_at(marked, entry_place(places, mark.0));
    }
}

/// Notes that the entry at a place is marked, if there is one.
fn note_at(marked: &mut [bool], place: Option<usize>)
    ensures long { length marked.new ≡ length marked.old }
    ensures noted { (p : ℕ) → p < length marked.old → slice_index_or marked.new p false
        ≡ (slice_index_or marked.old p false || option_map_or (λ n. nat_eq n p) place false) }
{
    if let Some(place) = place {
        if place < marked.len() {
            marked[place] = true;
        }
    }
}

/// No entry of so many is marked.
pub(crate) fn none_marked(alloc: Global, count: usize) -> Result<Vec<bool>, AllocError>
    ensures { IfOk result (λ v. v.items ≡ replicate count false) }
{
    let mut marked = Vec::with_capacity(alloc, count)?;
    for _ in 0..count {
        marked.push(false)?;
    }
    Ok(marked)
}

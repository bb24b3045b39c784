//! The states that entries get in a round, by the places of the entries.
ghost use Rattle.std.specs.Prelude.{
  ◌≡◌,
  IfOk,
  None,
  OnOk,
  length,
  map,
  replicate,
  slice_index_or,
  slice_set,
};
ghost use Rattle.std.specs.Option.{option_or};
ghost use Rattle.rounds_rendering.specs.Gathered.{AreGreatest, entry_place, put_before, with_greater};

use driver_lookup::state::DisambiguateState;
use driver_passes::renders::Marks;
use std::alloc::{AllocError, Global};

/// By the places of entries, the state that each gets, if it gets one.
pub(crate) type States = Vec<Option<DisambiguateState>>;

/// The greatest of the marks of each entry.
pub(crate) fn greatest_marks(
    alloc: Global,
    places: &[Vec<usize>],
    count: usize,
    marks: Marks,
) -> Result<States, AllocError>
    ensures { IfOk result
        (λ v. AreGreatest (map (λ ps. ps.items) places.now) marks.items count v.items) }
{
    let mut states = no_states(alloc, count)?;
    for (at, mark) in marks {
        if let Some(place) = entry_place(places, at) {
            raise_at(&mut states, place, mark);
        }
    }
    Ok(states)
}

/// Raises the state of the entry at a place to a mark, if an entry stands there.
fn raise_at(states: &mut [Option<DisambiguateState>], place: usize, mark: DisambiguateState)
    ensures { states.new
        ≡ slice_set states.old place (with_greater (slice_index_or states.old place None) mark) }
{
    if place < states.len() {
        raise(&mut states[place], mark);
    }
}

/// Raises a state to a mark, where that is greater.
fn raise(state: &mut Option<DisambiguateState>, mark: DisambiguateState)
    ensures { state.new ≡ with_greater state.old mark }
{
    *state = match state.take() {
        Some(before) => Some(before.max(mark)),
        None => Some(mark),
    };
}

/// No states for so many entries.
pub(crate) fn no_states(alloc: Global, count: usize) -> Result<States, AllocError>
    ensures { IfOk result (λ v. v.items ≡ replicate count None) }
{
    let mut states = Vec::with_capacity(alloc, count)?;
    for _ in 0..count {
        states.push(None)?;
    }
    Ok(states)
}

/// The place of the entry that is cited at a place, if a cite stands there.
pub(crate) fn entry_place(places: &[Vec<usize>], at: (usize, usize)) -> Option<usize>
    ensures { result ≡ entry_place (map (λ ps. ps.items) places.now) at }
{
    let (request, cite) = at;
    let of_request = places.get(request)?;
    of_request.get(cite).copied()
}

/// Puts the states of a round before those of the rounds before it: an entry that gets one has it
/// from then on.
pub(crate) fn put_before(
    states: &[Option<DisambiguateState>],
    kept: &mut [Option<DisambiguateState>],
) -> Result<(), AllocError>
    requires same { length states.now ≡ length kept.old }
    ensures { OnOk result (kept.new ≡ put_before states.now kept.old) }
{
    for place in 0..kept.len() {
        put_state_before(&states[place], &mut kept[place])?;
    }
    Ok(())
}

/// Puts a state before the one that was there, if there is one.
fn put_state_before(
    state: &Option<DisambiguateState>,
    kept: &mut Option<DisambiguateState>,
) -> Result<(), AllocError>
    ensures { OnOk result (kept.new ≡ option_or state.now kept.old) }
{
    if let Some(state) = state {
        *kept = Some(state.clone()?);
    }
    Ok(())
}

//! Entries for which the test of `disambiguate` is made to hold.
ghost use Rattle.std.specs.Prelude.{◌≡◌, ◌&&◌, All, IfOk, filter, find, map, not, option_map};
ghost use Rattle.rounds_ambiguity.specs.ChooseMarks.{asks, choose_marks, may_be_chosen};
ghost use Rattle.rounds_ambiguity.specs.Members.{entry_of, members};
ghost use Rattle.driver_lookup.specs.States.{may_get_names};
ghost use Rattle.driver_lookup.specs.declared.state.DisambiguateState.TheVariants.{Choose};
ghost use Rattle.driver_passes.specs.Places.{IsPlace};
ghost use Rattle.driver_passes.specs.RendersView.{renders_view};

use crate::members::member_at;
use csl_base::entry::EntryLike;
use driver_lookup::state::DisambiguateState;
use driver_passes::renders::{AmbiguousGroup, Marks, SpeculativeCiteRender, SpeculativeItemRender};
use std::alloc::{AllocError, Global};

/// Whether the cite asks and is in no state or in that of names.
fn may_ask<T, P>(item: &SpeculativeItemRender<'_, T, P>) -> bool
    ensures { result ≡ (item.now.checked_disambiguate
        && may_get_names item.now.cite_props.speculative.disambiguation) }
{
    let state = &item.cite_props.speculative.disambiguation;
    item.checked_disambiguate && state.may_disambiguate_with_choose()
}

/// Whether one of the cites at these places does and is.
fn may_be_chosen<T, P>(
    cites: &[SpeculativeCiteRender<'_, '_, T, P>],
    group: &[(usize, usize)],
) -> bool
    requires exist { All (IsPlace (renders_view cites.now)) group.now }
    ensures { result ≡ may_be_chosen (members (renders_view cites.now) group.now) }
{
    for place in group {
        if may_ask(member_at(cites, *place)) {
            return true;
        }
    }
    false
}

/// The entry of the first cite that asks.
fn first_asking<'a, T, P>(
    cites: &[SpeculativeCiteRender<'_, 'a, T, P>],
    group: &[(usize, usize)],
) -> Option<&'a T>
    requires exist { All (IsPlace (renders_view cites.now)) group.now }
    ensures { option_map (λ e. e.now) result
        ≡ option_map entry_of (find asks (members (renders_view cites.now) group.now)) }
{
    for place in group {
        let item = member_at(cites, *place);
        if item.checked_disambiguate {
            return Some(item.entry);
        }
    }
    None
}

/// Whether the cite asks and cites another entry than this.
fn asks_for_another<T: EntryLike, P>(item: &SpeculativeItemRender<'_, T, P>, spared: &T) -> bool
    ensures { result ≡ (item.now.checked_disambiguate && not (T.eq spared.now item.now.entry.now)) }
{
    item.checked_disambiguate && !(*spared == *item.entry)
}

/// The marks of the cites that do.
fn marks_of_others<T: EntryLike, P>(
    alloc: Global,
    cites: &[SpeculativeCiteRender<'_, '_, T, P>],
    group: &[(usize, usize)],
    spared: &T,
) -> Result<Marks, AllocError>
    requires exist { All (IsPlace (renders_view cites.now)) group.now }
    ensures { IfOk result (λ v. v.items
        ≡ map (λ m. (m.place, Choose))
        (filter (λ m. asks m && not (T.eq spared.now (entry_of m)))
        (members (renders_view cites.now) group.now))) }
{
    let mut marks = Vec::new(alloc);
    for place in group {
        if asks_for_another(member_at(cites, *place), spared) {
            marks.push((*place, DisambiguateState::Choose))?;
        }
    }
    Ok(marks)
}

/// The marks of the cites at these places.
fn choose_marks<T: EntryLike, P>(
    alloc: Global,
    cites: &[SpeculativeCiteRender<'_, '_, T, P>],
    group: &[(usize, usize)],
) -> Result<Marks, AllocError>
    requires exist { All (IsPlace (renders_view cites.now)) group.now }
    ensures { IfOk result
        (λ v. v.items ≡ choose_marks T.eq (members (renders_view cites.now) group.now)) }
{
    if !may_be_chosen(cites, group) {
        return Ok(Vec::new(alloc));
    }
    match first_asking(cites, group) {
        Some(spared) => marks_of_others(alloc, cites, group, spared),
        None => Ok(Vec::new(alloc)),
    }
}

/// The choose marks of an ambiguous group: where some cite that tested `disambiguate` is in no
/// state or in that of names, each cite that tested it is marked, in the order of the group, except
/// those of the entry of the first such cite. An empty group gives no marks.
///
/// # Errors
///
/// Fails where memory is refused.
pub fn disambiguate_with_choose<T: EntryLike, P>(
    alloc: Global,
    cites: &[SpeculativeCiteRender<'_, '_, T, P>],
    group: &AmbiguousGroup,
) -> Result<Marks, AllocError>
    requires exist { All (IsPlace (renders_view cites.now)) group.now.items }
    ensures { IfOk result (λ v. v.items
        ≡ choose_marks T.eq (members (renders_view cites.now) group.now.items)) }
{
    choose_marks(alloc, cites, group)
}

//! The properties of cites in their final order.
ghost use Rattle.std.specs.Prelude.{
  ◌≡◌,
  ◌<◌,
  ◌++◌,
  All,
  IfOk,
  None,
  OnOk,
  Some,
  fold,
  length,
  map,
  option_map,
  replicate,
  slice_get,
  slice_index,
  slice_index_or,
};
ghost use Rattle.std.specs.List.{last_or};
ghost use Rattle.driver_passes.specs.RendersView.{item_view, items_view, renders_view};
ghost use Rattle.driver_entries.specs.Entries.{distinct, is_in, place};
ghost use Rattle.driver_entries.specs.Laws.{NoTwoEqual};
ghost use Rattle.driver_entries.specs.Listed.{IsListingOf};
ghost use Rattle.driver_entries.specs.ListingView.{listing_view};
ghost use Rattle.driver_entries.specs.PlacedItems.{ArePlaced};
ghost use Rattle.driver_entries.specs.TableView.{table_view};
ghost use Rattle.driver_passes.specs.Positions.{with_last};
ghost use Rattle.driver_passes.specs.Renders.{ItemRender};
ghost use Rattle.driver_positions.specs.FinalProperties.{
  AreFirstItems,
  as_cite,
  cited_finally,
  items_before,
  with_final_properties,
};
ghost use Rattle.driver_positions.specs.FinalSteps.{
  IsPlacedWithin,
  all_set,
  first_position,
  items_at,
  led_to,
  placed_item,
  position_in,
  stands_of,
  with_first,
};

use csl_base::entry::EntryLike;
use driver_entries::listing::Listing;
use driver_entries::table::EntryTable;
use driver_lookup::state::IbidState;
use driver_passes::positions::position_by;
use driver_passes::renders::{SpeculativeCiteRender, SpeculativeItemRender};
use std::alloc::{AllocError, Global};

/// The place of a cite's entry.
fn place_led_to<T, P>(item: &SpeculativeItemRender<'_, T, P>, places: &[usize]) -> usize
    requires { IsPlacedWithin places.now (item_view item.now) }
    ensures { result ≡ led_to places.now (item_view item.now) }
{
    places[item.cite_props.certain.initial_idx]
}

/// Adds the places of the entries of a request's cites.
fn push_places<T, P>(
    all: &mut Vec<usize>,
    items: &[SpeculativeItemRender<'_, T, P>],
    places: &[usize],
) -> Result<(), AllocError>
    requires { All (IsPlacedWithin places.now) (items_view items.now) }
    ensures { OnOk result
        (all.new.items ≡ all.old.items ++ map (led_to places.now) (items_view items.now)) }
{
    for item in items {
        all.push(place_led_to(item, places))?;
    }
    Ok(())
}

/// The places of the entries of all cites, in the final order.
fn places_finally<'a, T: EntryLike, P>(
    alloc: Global,
    cites: &[SpeculativeCiteRender<'_, 'a, T, P>],
    table: &EntryTable<'a, T>,
) -> Result<Vec<usize>, AllocError>
    requires placed { ArePlaced T.eq (table_view table.now) (renders_view cites.now) }
    ensures { IfOk result (λ v. v.items
        ≡ map (λ e. place T.eq e (table_view table.now).entries)
        (cited_finally (renders_view cites.now))) }
{
    let places = table.places();
    let mut all = Vec::new(alloc);
    for (r, render) in cites.iter().enumerate() {
        push_places(&mut all, &render.items, &places[r])?;
    }
    Ok(all)
}

/// The entries of a table in the order of their first cites in the final order.
///
/// # Errors
/// Where memory is refused.
pub fn final_listing<'a, T: EntryLike, P>(
    alloc: Global,
    cites: &[SpeculativeCiteRender<'_, 'a, T, P>],
    table: &EntryTable<'a, T>,
) -> Result<Listing, AllocError>
    requires placed { ArePlaced T.eq (table_view table.now) (renders_view cites.now) }
    requires once { NoTwoEqual T.eq (table_view table.now).entries }
    requires same { (e : T) → is_in T.eq e (cited_finally (renders_view cites.now))
        ≡ is_in T.eq e (table_view table.now).entries }
    ensures { IfOk result (λ l. IsListingOf T.eq (table_view table.now).entries
        (distinct T.eq (cited_finally (renders_view cites.now))) (listing_view l)) }
{
    let places = places_finally(alloc, cites, table)?;
    Listing::of_indices(alloc, table.len(), &places)
}

/// Notes where a cite stands as the first of its entry, unless one is noted.
fn note_first(firsts: &mut [Option<(usize, usize)>], place: usize, at: (usize, usize))
    requires { place < length firsts.old }
    ensures { firsts.new ≡ with_first firsts.old (record { 0 = place; 1 = at }) }
{
    if firsts[place].is_none() {
        firsts[place] = Some(at);
    }
}

/// Notes where the cites of the request at r stand.
fn note_firsts<T, P>(
    firsts: &mut [Option<(usize, usize)>],
    r: usize,
    items: &[SpeculativeItemRender<'_, T, P>],
    places: &[usize],
)
    requires within { All (IsPlacedWithin places.now) (items_view items.now) }
    requires led { All (λ i. led_to places.now i < length firsts.old) (items_view items.now) }
    ensures { firsts.new ≡ fold with_first firsts.old
        (stands_of r places.now (items_view items.now)) }
{
    for (k, item) in items.iter().enumerate() {
        note_first(firsts, place_led_to(item, places), (r, k));
    }
}

/// None for each of so many entries.
fn no_firsts(alloc: Global, count: usize) -> Result<Vec<Option<(usize, usize)>>, AllocError>
    ensures { IfOk result (λ v. v.items ≡ replicate count None) }
{
    vec![in alloc; None; count]
}

/// By the places of the entries in the table, the request of each one's first cite in the final
/// order, and the cite's index there; none for an entry that no cite cites.
///
/// # Errors
/// Where memory is refused.
pub fn first_items<'a, T: EntryLike, P>(
    alloc: Global,
    cites: &[SpeculativeCiteRender<'_, 'a, T, P>],
    table: &EntryTable<'a, T>,
) -> Result<Vec<Option<(usize, usize)>>, AllocError>
    requires placed { ArePlaced T.eq (table_view table.now) (renders_view cites.now) }
    requires once { NoTwoEqual T.eq (table_view table.now).entries }
    requires same { (e : T) → is_in T.eq e (cited_finally (renders_view cites.now))
        ≡ is_in T.eq e (table_view table.now).entries }
    ensures { IfOk result (λ firsts. AreFirstItems T.eq (table_view table.now).entries
        (renders_view cites.now) firsts.items) }
{
    let places = table.places();
    let mut firsts = no_firsts(alloc, table.len())?;
    for (r, render) in cites.iter().enumerate() {
        note_firsts(&mut firsts, r, &render.items, &places[r]);
    }
    Ok(firsts)
}

/// The position of a cite behind the last one, which counts as shown.
fn position_behind<T: PartialEq, P: PartialEq>(
    this: &SpeculativeItemRender<'_, T, P>,
    last: Option<&SpeculativeItemRender<'_, T, P>>,
) -> IbidState
    ensures { result ≡ with_last T.eq P.eq (as_cite (item_view this.now))
        (option_map (λ l. as_cite (item_view l.now)) last.entry) }
{
    let Some(last) = last else {
        return IbidState::Different;
    };
    let repeats = *this.entry == *last.entry;
    position_by(repeats, &this.locator, &last.locator)
}

/// The last cite of the request directly before; none where it has none, or there is no such
/// request.
fn last_before<'x, 'a, T, P>(
    cites: &'x [SpeculativeCiteRender<'_, 'a, T, P>],
    r: usize,
) -> Option<&'x SpeculativeItemRender<'a, T, P>>
    requires { r < length cites.now }
    ensures { option_map (λ i. item_view i.now) result
        ≡ last_or None (items_before (renders_view cites.now) r) }
{
    if r == 0 {
        None
    } else {
        cites[r - 1].items.last()
    }
}

/// The position of the first cite of a request; `Different` where it has none.
fn first_position<T: PartialEq, P: PartialEq>(
    cites: &[SpeculativeCiteRender<'_, '_, T, P>],
    r: usize,
) -> IbidState
    requires { r < length cites.now }
    ensures { result ≡ first_position T.eq P.eq (items_before (renders_view cites.now) r)
        (items_at (renders_view cites.now) r) }
{
    match cites[r].items.first() {
        Some(this) => position_behind(this, last_before(cites, r)),
        None => IbidState::Different,
    }
}

/// The position of the cite at a place of its request, whose first one has this position.
fn position_at<T: PartialEq, P: PartialEq>(
    items: &[SpeculativeItemRender<'_, T, P>],
    k: usize,
    first: IbidState,
) -> IbidState
    requires { k < length items.now }
    ensures { (i : ItemRender T P) → slice_get (items_view items.now) k ≡ Some i
        → result ≡ position_in T.eq P.eq first (items_view items.now) k i }
{
    if k == 0 {
        first
    } else {
        position_behind(&items[k], Some(&items[k - 1]))
    }
}

/// Sets the position of a cite and the number of its entry.
fn set_item<T, P>(item: &mut SpeculativeItemRender<'_, T, P>, ibid: IbidState, number: usize)
    ensures { item_view item.new ≡ placed_item ibid number (item_view item.old) }
{
    item.cite_props.speculative.ibid = ibid;
    item.cite_props.speculative.citation_number = number;
}

/// The number of a cite's entry, by the places of the entries; 0 where there is none.
fn number_of<T, P>(
    item: &SpeculativeItemRender<'_, T, P>,
    places: &[usize],
    numbers: &[usize],
) -> usize
    requires { IsPlacedWithin places.now (item_view item.now) }
    ensures { result ≡ slice_index numbers.now (led_to places.now (item_view item.now)) }
{
    match numbers.get(place_led_to(item, places)) {
        Some(number) => *number,
        None => 0,
    }
}

/// Sets the final properties of the cites of a request, whose first one has this position.
fn set_items<T: PartialEq, P: PartialEq>(
    items: &mut [SpeculativeItemRender<'_, T, P>],
    first: IbidState,
    places: &[usize],
    numbers: &[usize],
)
    requires { All (IsPlacedWithin places.now) (items_view items.old) }
    ensures { items_view items.new
        ≡ all_set T.eq P.eq first places.now numbers.now (items_view items.old) }
{
    for k in 0..items.len() {
        let ibid = position_at(items, k, first);
        let number = number_of(&items[k], places, numbers);
        set_item(&mut items[k], ibid, number);
    }
}

/// Sets the position of each cite in the final order, against the one before it in its request or
/// the last one of the request directly before, and the number of its entry, by the places of the
/// entries in the table. Nothing else changes. Hidden cites count as shown. It takes no memory.
pub fn set_final_properties<'a, T: EntryLike, P: PartialEq>(
    cites: &mut [SpeculativeCiteRender<'_, 'a, T, P>],
    table: &EntryTable<'a, T>,
    numbers: &[usize],
)
    requires placed { ArePlaced T.eq (table_view table.now) (renders_view cites.old) }
    ensures { renders_view cites.new
        ≡ with_final_properties T.eq P.eq
        (λ e. slice_index_or numbers.now (place T.eq e (table_view table.now).entries) 0)
        (renders_view cites.old) }
{
    let places = table.places();
    for r in 0..cites.len() {
        let first = first_position(cites, r);
        set_items(&mut cites[r].items, first, &places[r], numbers);
    }
}

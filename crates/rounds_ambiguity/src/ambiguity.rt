//! Cites that read alike and don't all cite the same entry.
ghost use Rattle.std.specs.Prelude.{
  ◌≡◌,
  ◌++◌,
  ◌∷◌,
  [],
  All,
  IfOk,
  List,
  OnOk,
  if◌then◌else◌,
  map,
  not,
};
ghost use Rattle.std.specs.List.{list_any};
ghost use Rattle.rounds_ambiguity.specs.Ambiguity.{
  ambiguous_groups,
  cite_different,
  classes,
  without_suffix,
};
ghost use Rattle.rounds_ambiguity.specs.ClassesSoFar.{AreClassesOf};
ghost use Rattle.rounds_ambiguity.specs.Members.{
  Member,
  document,
  entry_of,
  members,
  place_of,
  request_cites,
};
ghost use Rattle.driver_lookup.specs.States.{may_get_suffix};
ghost use Rattle.driver_passes.specs.Places.{AreDistinct, IsPlace};
ghost use Rattle.driver_passes.specs.RendersView.{item_view, render_view, renders_view};

use crate::classes::Classes;
use crate::members::member_at;
use csl_base::entry::EntryLike;
use driver_passes::renders::{AmbiguousGroup, SpeculativeCiteRender, SpeculativeItemRender};
use std::alloc::{AllocError, Global};

/// Whether the entry of the cite has no suffix.
fn has_no_suffix<T, P>(item: &SpeculativeItemRender<'_, T, P>) -> bool
    ensures { result ≡ may_get_suffix item.now.cite_props.speculative.disambiguation }
{
    let state = &item.cite_props.speculative.disambiguation;
    state.may_disambiguate_with_year_suffix()
}

/// Adds a cite to those of its text, unless its entry has a suffix. The text is written into
/// `text`.
fn add_cite<T, P>(
    alloc: Global,
    classes: &mut Classes,
    place: (usize, usize),
    item: &SpeculativeItemRender<'_, T, P>,
    text: &mut String,
) -> Result<(), AllocError>
    ensures { OnOk result ((cites : List (Member T P)) (m : Member T P) → m.place ≡ place
        → m.item ≡ item_view item.now → AreClassesOf (without_suffix cites) classes.old
        → AreClassesOf (without_suffix (cites ++ m ∷ [])) classes.new) }
{
    if has_no_suffix(item) {
        text.clear();
        item.rendered.write_plain(text)?;
        classes.add(alloc, place, text)?;
    }
    Ok(())
}

/// Adds the cites of the request at this place.
fn add_cites<T, P>(
    alloc: Global,
    classes: &mut Classes,
    request: usize,
    render: &SpeculativeCiteRender<'_, '_, T, P>,
    text: &mut String,
) -> Result<(), AllocError>
    ensures { OnOk result ((cites : List (Member T P))
        → AreClassesOf (without_suffix cites) classes.old
        → AreClassesOf (without_suffix (cites ++ request_cites request (render_view render.now)))
        classes.new) }
{
    for (k, item) in render.items.iter().enumerate() {
        add_cite(alloc, classes, (request, k), item, text)?;
    }
    Ok(())
}

/// The places of the cites that read alike, for each text that two or more have, in the order of
/// the second ones.
fn classes<T, P>(
    alloc: Global,
    cites: &[SpeculativeCiteRender<'_, '_, T, P>],
) -> Result<Vec<AmbiguousGroup>, AllocError>
    ensures { IfOk result (λ v. map (λ g. g.items) v.items
        ≡ map (map place_of) (classes (without_suffix (document (renders_view cites.now))))) }
{
    let mut classes = Classes::new(alloc);
    let mut text = String::new(alloc);
    for (r, render) in cites.iter().enumerate() {
        add_cites(alloc, &mut classes, r, render, &mut text)?;
    }
    Ok(classes.groups)
}

/// Whether one of the cites at these places cites another entry than this.
fn cites_another<T: EntryLike, P>(
    cites: &[SpeculativeCiteRender<'_, '_, T, P>],
    places: &[(usize, usize)],
    entry: &T,
) -> bool
    requires exist { All (IsPlace (renders_view cites.now)) places.now }
    ensures { result ≡ list_any (λ m. not (T.eq entry.now (entry_of m)))
        (members (renders_view cites.now) places.now) }
{
    for place in places {
        if !(*entry == *member_at(cites, *place).entry) {
            return true;
        }
    }
    false
}

/// Whether the cites at these places cite different entries.
fn cite_different<T: EntryLike, P>(
    cites: &[SpeculativeCiteRender<'_, '_, T, P>],
    places: &[(usize, usize)],
) -> bool
    requires exist { All (IsPlace (renders_view cites.now)) places.now }
    ensures { result ≡ cite_different T.eq (members (renders_view cites.now) places.now) }
{
    match places.first() {
        Some(first) => cites_another(cites, places, member_at(cites, *first).entry),
        None => false,
    }
}

/// Adds the places to the groups, if the cites there cite different entries.
fn keep_if_different<T: EntryLike, P>(
    cites: &[SpeculativeCiteRender<'_, '_, T, P>],
    places: AmbiguousGroup,
    groups: &mut Vec<AmbiguousGroup>,
) -> Result<(), AllocError>
    requires exist { All (IsPlace (renders_view cites.now)) places.items }
    ensures { OnOk result (map (λ g. g.items) groups.new.items
        ≡ map (λ g. g.items) groups.old.items
        ++ (if cite_different T.eq (members (renders_view cites.now) places.items)
        then places.items ∷ []
        else [])) }
{
    if cite_different(cites, &places) {
        groups.push(places)?;
    }
    Ok(())
}

/// The ambiguous groups of a document (CSL 1.0.2, disambiguation): the places of the cites that
/// have equal plain texts, where they cite two entries at least. Cites whose entry has a suffix
/// stand in no group. The places of a group are in document order, and the groups in the order of
/// their second places.
///
/// # Errors
///
/// Fails where memory is refused.
pub fn find_ambiguous_sets<T: EntryLike, P>(
    alloc: Global,
    cites: &[SpeculativeCiteRender<'_, '_, T, P>],
) -> Result<Vec<AmbiguousGroup>, AllocError>
    ensures groups { IfOk result (λ v. map (λ g. g.items) v.items
        ≡ ambiguous_groups T.eq (renders_view cites.now)) }
    ensures exist { IfOk result
        (λ v. All (λ g. All (IsPlace (renders_view cites.now)) g.items) v.items) }
    ensures distinct { IfOk result (λ v. All (λ g. AreDistinct g.items) v.items) }
{
    let mut groups = Vec::new(alloc);
    for class in classes(alloc, cites)? {
        keep_if_different(cites, class, &mut groups)?;
    }
    Ok(groups)
}

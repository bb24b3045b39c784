//! Names that disambiguate mentions of a group. All looks that go on from a node are known by what
//! they share; so for each name of a mention it is asked whether another one goes on, or ends,
//! where the names before it lead.
ghost use Rattle.std.specs.Prelude.{◌≡◌, ◌+◌, ◌<◌, ◌++◌, ◌∷◌, [], ◌^◌, IfOk, OnOk, map};
ghost use Rattle.std.specs.List.{enumerate_from, flat_map};
ghost use Rattle.mentions_names.specs.Gathered.{IsGathered, asking, count_at, count_from, count_of, ends_at, ends_of, forms_at, is_end, needs_on, shown_at, shown_by};
ghost use Rattle.mentions_names.specs.Rivals.{TellsMore};
ghost use Rattle.mentions_names.specs.Telling.{greatest};
ghost use Rattle.mentions_names.specs.declared.rivals.Node.{Node as NodeValue};

use crate::rivals::{Node, Rivals, add_at, at_node, has_other, is_held, needed_form};
use crate::ways::{Stop, Way};
use indexmap::IndexSet;
use std::alloc::{AllocError, Global};
use std::collections::BTreeMap;
use value_lists::seq::Seq;
use value_sources::names::DisambiguatedNameForm;

/// All that is shown from the stops of mentions.
#[derive(Drop)]
pub(crate) struct Gathered {
    pub(crate) beside: Rivals,
    /// The nodes at which the names of some mention end.
    pub(crate) ends: IndexSet<Node>,
}

/// What a mention needs to be disambiguated from the others of its group.
#[derive(Drop)]
pub(crate) struct Needs {
    /// How many names have to be shown.
    pub(crate) count: usize,
    /// The form that each name needs.
    pub(crate) forms: Seq<DisambiguatedNameForm>,
}

/// Adds what is shown at a stop.
fn add_stop(
    alloc: Global,
    beside: &mut Rivals,
    by_cite: bool,
    stop: &Stop,
) -> Result<(), AllocError>
    ensures { OnOk result (TellsMore beside.old beside.new (shown_at by_cite stop.now)) }
{
    match &stop.look {
        Some(look) => add_at(alloc, beside, by_cite, stop.node, look),
        None => Ok(()),
    }
}

/// Adds what is shown at each stop of a way.
fn add_way(alloc: Global, beside: &mut Rivals, way: &Way) -> Result<(), AllocError>
    ensures { OnOk result (TellsMore beside.old beside.new (shown_by way.now)) }
{
    for stop in way.stops.as_slice() {
        add_stop(alloc, beside, way.by_cite, stop)?;
    }
    Ok(())
}

/// Adds the node of a stop at which the names end.
fn add_end(ends: &mut IndexSet<Node>, stop: &Stop) -> Result<(), AllocError>
    ensures { OnOk result ((n : NodeValue) → is_end n ends.new.keys
        ≡ is_end n (ends.old.keys ++ ends_at stop.now)) }
{
    if stop.look.is_none() {
        ends.insert(stop.node)?;
    }
    Ok(())
}

/// Adds the node at which the names of a way end.
fn add_ends(ends: &mut IndexSet<Node>, way: &Way) -> Result<(), AllocError>
    ensures { OnOk result ((n : NodeValue) → is_end n ends.new.keys
        ≡ is_end n (ends.old.keys ++ ends_of way.now)) }
{
    for stop in way.stops.as_slice() {
        add_end(ends, stop)?;
    }
    Ok(())
}

/// Adds all that is shown on a way, and where it ends, if its mention occurs.
fn add_if_it_occurs(
    alloc: Global,
    beside: &mut Rivals,
    ends: &mut IndexSet<Node>,
    way: &Way,
) -> Result<(), AllocError>
    ensures beside { OnOk result
        (TellsMore beside.old beside.new (flat_map shown_by (asking (way.now ∷ [])))) }
    ensures ends { OnOk result ((n : NodeValue) → is_end n ends.new.keys
        ≡ is_end n (ends.old.keys ++ flat_map ends_of (asking (way.now ∷ [])))) }
{
    if !way.occurs {
        return Ok(());
    }
    add_way(alloc, beside, way)?;
    add_ends(ends, way)
}

/// All that is shown on the ways of the mentions that occur.
pub(crate) fn gather(alloc: Global, ways: &[Way]) -> Result<Gathered, AllocError>
    ensures { IfOk result (λ g. IsGathered g (asking ways.now)) }
{
    let mut beside = BTreeMap::new(alloc);
    let mut ends = IndexSet::new(alloc);
    for way in ways {
        add_if_it_occurs(alloc, &mut beside, &mut ends, way)?;
    }
    Ok(Gathered { beside, ends })
}

/// How many names are needed behind `i` names at a stop: one more where another way goes on there
/// with another look, as many where one ends there.
fn count_of(i: usize, other_goes_on: bool, other_ends: bool) -> usize
    requires { i + 1 < 2 ^ 64 }
    ensures { result ≡ count_of i other_goes_on other_ends }
{
    if other_goes_on {
        i + 1
    } else if other_ends {
        i
    } else {
        0
    }
}

/// How many names are needed because of what goes on or ends at a stop, behind `i` names.
fn count_at(gathered: &Gathered, i: usize, stop: &Stop) -> usize
    requires { i + 1 < 2 ^ 64 }
    ensures { result ≡ count_from gathered.now i stop.now.node stop.now.look }
{
    let name = at_node(stop.node);
    match &stop.look {
        Some(look) => count_of(
            i,
            has_other(&gathered.beside, &name, look),
            gathered.ends.contains(&stop.node),
        ),
        None => {
            if is_held(&gathered.beside, &name) {
                i
            } else {
                0
            }
        }
    }
}

fn counted(gathered: &Gathered, way: &Way) -> usize
    ensures { result ≡ greatest (map (count_at gathered.now) (enumerate_from 0 way.now.stops)) }
{
    let mut count = 0;
    for (i, stop) in way.stops.as_slice().iter().enumerate() {
        count = count_at(gathered, i, stop).max(count);
    }
    count
}

/// Adds the form that the name behind a stop needs.
fn add_form(
    alloc: Global,
    gathered: &Gathered,
    by_cite: bool,
    stop: &Stop,
    forms: &mut Vec<DisambiguatedNameForm>,
) -> Result<(), AllocError>
    ensures { OnOk result (forms.new.items
        ≡ forms.old.items ++ forms_at gathered.now by_cite stop.now) }
{
    let Some(look) = &stop.look else {
        return Ok(());
    };
    if by_cite {
        forms.push(needed_form(alloc, &gathered.beside, stop.node, look)?)?;
    } else {
        forms.push(DisambiguatedNameForm::Short)?;
    }
    Ok(())
}

/// What the mention of a way needs against those of all ways that are gathered.
pub(crate) fn needs_on(alloc: Global, gathered: &Gathered, way: &Way) -> Result<Needs, AllocError>
    ensures { IfOk result (λ n. n ≡ needs_on gathered.now way.now) }
{
    let mut forms = Vec::new(alloc);
    for stop in way.stops.as_slice() {
        add_form(alloc, gathered, way.by_cite, stop, &mut forms)?;
    }
    Ok(Needs {
        count: counted(gathered, way),
        forms: Seq::new(forms),
    })
}

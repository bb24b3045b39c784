//! The blocks of a request's cites, by their places.
ghost use Rattle.std.specs.Prelude.{◌≡◌, ◌+◌, ◌<◌, ◌++◌, None, Some, if◌then◌else◌, OnOk, IfOk};
ghost use Rattle.driver_passes.specs.RendersView.{item_view, items_view};
ghost use Rattle.rounds_grouping.specs.BlockKeys.{is_named, key_of};
ghost use Rattle.rounds_grouping.specs.Steps.{
  IsPaired,
  blocks_of,
  blocks_view,
  key_view,
  placed_block,
  placed_blocks,
  with_place,
};

use crate::tokens::Names;
use driver_passes::renders::SpeculativeItemRender;
use ordered_set::set::OrderedSet;
use std::alloc::{AllocError, Global};

/// What the cites of a block have in common.
#[derive(PartialEq, Eq, PartialOrd, Ord, Drop)]
enum Key<'r> {
    /// The first names element.
    Named(Names<'r>),
    /// A cite without names, by its index.
    Alone(usize),
}

/// Blocks, in the order of their first cites.
#[derive(Drop)]
struct Blocks<'r> {
    /// The key of each.
    keys: OrderedSet<Key<'r>>,
    /// The places of the cites of each.
    places: Vec<Vec<usize>>,
}

/// A cite in its block.
#[derive(Clone, Copy)]
pub(crate) struct Placed {
    /// The index at which it was handed in.
    pub(crate) place: usize,
    /// The index of its block.
    pub(crate) group: Option<usize>,
    /// Whether it comes behind another of its block.
    pub(crate) follows: bool,
}

/// The key of the cite at index k.
fn key_of<'r, T, P>(
    alloc: Global,
    cite: &'r SpeculativeItemRender<'_, T, P>,
    k: usize,
) -> Result<Key<'r>, AllocError>
    ensures { IfOk result (λ key. key_view key ≡ key_of k (item_view cite.now)) }
{
    match cite.rendered.find_names() {
        Some(names) => Ok(Key::Named(Names::new(alloc, names)?)),
        None => Ok(Key::Alone(k)),
    }
}

/// A key once more.
fn copied<'r>(alloc: Global, key: &Key<'r>) -> Result<Key<'r>, AllocError>
    ensures { IfOk result (λ k. k ≡ key.now) }
{
    match key {
        Key::Named(names) => Ok(Key::Named(names.copied(alloc)?)),
        Key::Alone(place) => Ok(Key::Alone(*place)),
    }
}

/// Adds the cite at index k to the block of its key.
fn add_place<'r>(
    alloc: Global,
    blocks: &mut Blocks<'r>,
    key: Key<'r>,
    k: usize,
) -> Result<(), AllocError>
    requires { IsPaired blocks.old }
    ensures paired { OnOk result (IsPaired blocks.new) }
    ensures added { OnOk result (blocks_view blocks.new
        ≡ with_place (blocks_view blocks.old) (key_view key.entry) k) }
{
    match blocks.keys.index_of(&key) {
        Some(i) => blocks.places[i].push(k)?,
        None => {
            let copy = copied(alloc, &key)?;
            let mut places = Vec::new(alloc);
            places.push(k)?;
            blocks.places.push(places)?;
            blocks.keys.insert(key, copy)?;
        }
    }
    Ok(())
}

/// The places of the cites by their keys, in the order of the first cites.
fn blocks_of<'r, T, P>(
    alloc: Global,
    items: &'r [SpeculativeItemRender<'_, T, P>],
) -> Result<Blocks<'r>, AllocError>
    ensures paired { IfOk result (λ blocks. IsPaired blocks) }
    ensures blocks { IfOk result (λ blocks. blocks_view blocks ≡ blocks_of (items_view items.now)) }
{
    let mut blocks = Blocks {
        keys: OrderedSet::new(alloc),
        places: Vec::new(alloc),
    };
    for (k, cite) in items.iter().enumerate() {
        let key = key_of(alloc, cite, k)?;
        add_place(alloc, &mut blocks, key, k)?;
    }
    Ok(blocks)
}

/// Adds the cites of a block to an order.
fn push_block(
    order: &mut Vec<Placed>,
    places: &[usize],
    group: Option<usize>,
) -> Result<(), AllocError>
    ensures { OnOk result (order.new.items ≡ order.old.items ++ placed_block group places.now) }
{
    let mut follows = false;
    for place in places {
        order.push(Placed {
            place: *place,
            group,
            follows,
        })?;
        follows = true;
    }
    Ok(())
}

/// Adds the cites of the block of a key to an order, where the next block with names has this
/// index; gives the index that the next one has then.
fn push_named(
    order: &mut Vec<Placed>,
    key: &Key<'_>,
    places: &[usize],
    next: usize,
) -> Result<usize, AllocError>
    requires { next < usize.MAX }
    ensures pushed { OnOk result (order.new.items
        ≡ order.old.items ++ placed_block (if is_named (key_view key.now) then Some next
        else None) places.now) }
    ensures next { IfOk result (λ n. n ≡ (if is_named (key_view key.now) then next + 1 else next)) }
{
    match key {
        Key::Named(_) => {
            push_block(order, places, Some(next))?;
            Ok(next + 1)
        }
        Key::Alone(_) => {
            push_block(order, places, None)?;
            Ok(next)
        }
    }
}

/// Where the cites of these blocks go, one block after another.
fn order_of(alloc: Global, blocks: &Blocks<'_>, count: usize) -> Result<Vec<Placed>, AllocError>
    requires { IsPaired blocks.now }
    ensures { IfOk result (λ order. order.items ≡ placed_blocks 0 (blocks_view blocks.now)) }
{
    let keys = blocks.keys.as_slice();
    let mut order = Vec::with_capacity(alloc, count)?;
    let mut next = 0;
    for b in 0..keys.len() {
        next = push_named(&mut order, &keys[b], &blocks.places[b], next)?;
    }
    Ok(order)
}

/// Where each cite goes: block after block.
pub(crate) fn block_order<T, P>(
    alloc: Global,
    items: &[SpeculativeItemRender<'_, T, P>],
) -> Result<Vec<Placed>, AllocError>
    ensures { IfOk result
        (λ order. order.items ≡ placed_blocks 0 (blocks_of (items_view items.now))) }
{
    let blocks = blocks_of(alloc, items)?;
    order_of(alloc, &blocks, items.len())
}

//! Blocks of cites that have the same names (CSL 1.0.2, cite grouping).
ghost use Rattle.std.specs.Prelude.{◌≡◌, IfOk, OnOk, Some, length, map};
ghost use Rattle.std.specs.HashMap.{get};
ghost use Rattle.std.specs.List.{range_with_len};
ghost use Rattle.std.specs.List.Sorted.{IsPermutation};
ghost use Rattle.mentions_ranges.specs.Stretches.{both};
ghost use Rattle.mentions_blocks.specs.Blocks.{block_order, is_parted, placed_cites};
ghost use Rattle.mentions_blocks.specs.Firsts.{IsNoted, first_by, part_by, same_key};

use driver_lookup::apart::Apart;
use std::alloc::{AllocError, Global};
use std::collections::HashMap;

/// A cite of a request whose cites are grouped, in the order in which they were handed in.
#[derive(Clone, Copy)]
pub struct GroupedCite {
    /// Its names as they are shown: a number that is the same for equal ones; none where it has
    /// none, or is hidden by its caller.
    pub names: Option<usize>,
    /// Words of its caller's around it.
    pub apart: Option<Apart>,
}

/// Where a cite goes.
#[derive(Clone, Copy)]
pub struct PlacedCite {
    /// The place at which it was handed in.
    pub place: usize,
    /// The place of the first cite of its block.
    pub block: usize,
}

/// What the cites of a block have in common.
#[derive(Clone, Copy, PartialEq, Eq, Hash)]
pub(crate) struct BlockKey {
    pub(crate) names: usize,
    /// The place at which their part of the request begins.
    pub(crate) part: usize,
}

/// The cites of a request in their final order. Those with equal names form a block in their
/// order, which stands where its first cite stood; a cite without names is a block of its own. No
/// block reaches across words of a caller's: a cite that has some before it begins a new part of
/// the request, one that has some behind it, or shows no author, is a part of its own, and only
/// cites of one part are in one block.
///
/// # Errors
///
/// Where memory is refused.
pub fn block_order(alloc: Global, cites: &[GroupedCite]) -> Result<Vec<PlacedCite>, AllocError>
    ensures order { IfOk result (λ v. v.items ≡ block_order cites.now) }
    ensures once { IfOk result (λ v. IsPermutation (range_with_len 0 (length cites.now))
        (map (λ c. c.place) v.items)) }
{
    let mut placed = placed_cites(alloc, cites)?;
    placed.sort_by_key(|cite| cite.block)?;
    Ok(placed)
}

/// The cites of a request, each with its block.
fn placed_cites(alloc: Global, cites: &[GroupedCite]) -> Result<Vec<PlacedCite>, AllocError>
    ensures { IfOk result (λ v. v.items ≡ placed_cites cites.now) }
{
    let mut part = 0;
    let mut before: Option<GroupedCite> = None;
    let mut firsts = HashMap::new(alloc);
    let mut placed = Vec::with_capacity(alloc, cites.len())?;
    for (place, cite) in cites.iter().enumerate() {
        part = part_at(part, place, before, cite);
        placed.push(PlacedCite {
            place,
            block: block_at(&mut firsts, part, place, cite.names)?,
        })?;
        before = Some(*cite);
    }
    Ok(placed)
}

/// The place at which the part of the cite at this place begins, where that of the one before it
/// begins at `part`.
fn part_at(part: usize, place: usize, before: Option<GroupedCite>, cite: &GroupedCite) -> usize
    ensures { result ≡ part_by part place before cite.now }
{
    if is_parted(before, cite) { place } else { part }
}

/// Whether words stand between a cite and the one before it, if there is one.
fn is_parted(before: Option<GroupedCite>, cite: &GroupedCite) -> bool
    ensures { result ≡ both is_parted before (Some cite.now) }
{
    match before {
        Some(before) => matches!(before.apart, Some(Apart::Both)) || cite.apart.is_some(),
        None => false,
    }
}

/// The place of the first cite of the block of a cite with these names, at this place and in this
/// part. If it is the first itself, it is noted as that.
fn block_at(
    firsts: &mut HashMap<BlockKey, usize>,
    part: usize,
    place: usize,
    names: Option<usize>,
) -> Result<usize, AllocError>
    ensures block { IfOk result (λ b. b ≡ first_by firsts.old part place names) }
    ensures noted { OnOk result (IsNoted firsts.old firsts.new part place names) }
{
    let Some(names) = names else {
        return Ok(place);
    };
    let key = BlockKey { names, part };
    match first_of(firsts, &key) {
        Some(first) => Ok(first),
        None => {
            firsts.insert(key, place)?;
            Ok(place)
        }
    }
}

/// The place of the first cite with a key, if one was noted.
fn first_of(firsts: &HashMap<BlockKey, usize>, key: &BlockKey) -> Option<usize>
    ensures { result ≡ get same_key firsts.now key.now }
{
    match firsts.get(key) {
        Some(first) => Some(*first),
        None => None,
    }
}

//! Moving the members of a list into another order.
ghost use Rattle.std.specs.Prelude.{◌≡◌, ◌<◌, IfOk, length, slice_index, slice_set, swap};
ghost use Rattle.std.specs.List.{range_with_len};
ghost use Rattle.std.specs.List.Sorted.{IsPermutation};
ghost use Rattle.rounds_grouping.specs.Moves.{IsPicked};

use std::alloc::{AllocError, Global};

/// The places before n, in order.
pub(crate) fn places_below(alloc: Global, n: usize) -> Result<Vec<usize>, AllocError>
    ensures { IfOk result (λ v. v.items ≡ range_with_len 0 n) }
{
    let mut places = Vec::with_capacity(alloc, n)?;
    for k in 0..n {
        places.push(k)?;
    }
    Ok(places)
}

/// Moves the members so that at each place stands the one that stood at that place of the order. It
/// takes no memory: the other two lists are for its own use, and begin as the places in order.
pub(crate) fn rearrange<X>(
    items: &mut [X],
    order: &[usize],
    standing: &mut [usize],
    found_at: &mut [usize],
)
    requires permutation { IsPermutation (range_with_len 0 (length items.old)) order.now }
    requires standing { standing.old ≡ range_with_len 0 (length items.old) }
    requires found_at { found_at.old ≡ range_with_len 0 (length items.old) }
    ensures { IsPicked items.old order.now items.new }
{
    for i in 0..order.len() {
        bring(items, standing, found_at, i, order[i]);
    }
}

/// Brings the member that stood at a place to i, and the one from there to where that was.
fn bring<X>(items: &mut [X], standing: &mut [usize], found_at: &mut [usize], i: usize, place: usize)
    requires place_found { place < length found_at.old }
    requires here { i < length items.old }
    requires here_standing { i < length standing.old }
    requires from { slice_index found_at.old place < length items.old }
    requires from_standing { slice_index found_at.old place < length standing.old }
    requires other { slice_index standing.old i < length found_at.old }
    ensures items { items.new ≡ swap items.old i (slice_index found_at.old place) }
    ensures standing { standing.new ≡ swap standing.old i (slice_index found_at.old place) }
    ensures found_at { found_at.new
        ≡ slice_set (slice_set found_at.old (slice_index standing.old i)
        (slice_index found_at.old place))
        place i }
{
    let from = found_at[place];
    let other = standing[i];
    items.swap(i, from);
    standing.swap(i, from);
    found_at[other] = from;
    found_at[place] = i;
}

//! Parts of blocks, in which names are shown once (CSL 1.0.2, cite grouping).
ghost use Rattle.std.specs.Prelude.{◌≡◌, IfOk, Some, if◌then◌else◌, nat_eq, true};
ghost use Rattle.std.specs.Option.{option_map_or};
ghost use Rattle.mentions_ranges.specs.Stretches.{both};
ghost use Rattle.mentions_blocks.specs.Parts.{goes_on, parts};

use std::alloc::{AllocError, Global};

/// A cite in the final order of its request, by what divides blocks.
#[derive(Clone, Copy)]
pub struct ShownCite {
    /// The place of the first cite of its block.
    pub block: usize,
    /// The names that it shows: a number that is the same for equal ones; none where it shows none.
    pub names: Option<usize>,
}

/// Where a part begins, and the names that its first cite shows.
#[derive(Clone, Copy)]
struct Part {
    begins: usize,
    names: Option<usize>,
}

/// The parts of the blocks of a request: of each cite the place at which its part begins, in the
/// final order. A cite begins a part if it is the first of its block, if no cite of the part before
/// it shows names, or if it shows other names than that part.
///
/// # Errors
///
/// Where memory is refused.
pub fn parts_of_blocks(alloc: Global, cites: &[ShownCite]) -> Result<Vec<usize>, AllocError>
    ensures { IfOk result (λ v. v.items ≡ parts cites.now) }
{
    let mut part = Part {
        begins: 0,
        names: None,
    };
    let mut before: Option<ShownCite> = None;
    let mut parts = Vec::with_capacity(alloc, cites.len())?;
    for (place, cite) in cites.iter().enumerate() {
        part = part_of(part, before, place, cite);
        parts.push(part.begins)?;
        before = Some(*cite);
    }
    Ok(parts)
}

/// The part of the cite at a place, where the one before it, if there is one, is of this part.
fn part_of(part: Part, before: Option<ShownCite>, place: usize, cite: &ShownCite) -> Part
    ensures begins { result.begins
        ≡ (if both (goes_on part.names) before (Some cite.now) then part.begins else place) }
    ensures names { result.names
        ≡ (if both (goes_on part.names) before (Some cite.now) then part.names
        else cite.now.names) }
{
    match before {
        Some(before) if goes_on(part.names, before, cite) => part,
        _ => Part {
            begins: place,
            names: cite.names,
        },
    }
}

/// Whether a cite goes on with the part of the one before it, which shows these names.
fn goes_on(names: Option<usize>, before: ShownCite, cite: &ShownCite) -> bool
    ensures { result ≡ goes_on names before cite.now }
{
    match names {
        Some(names) => before.block == cite.block && shows_these_or_none(names, cite.names),
        None => false,
    }
}

/// Whether these are the names that a cite shows, or it shows none.
fn shows_these_or_none(names: usize, shown: Option<usize>) -> bool
    ensures { result ≡ option_map_or (nat_eq names) shown true }
{
    match shown {
        Some(shown) => names == shown,
        None => true,
    }
}

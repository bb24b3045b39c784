//! Cites in their final order, with their positions.
ghost use Rattle.std.specs.Prelude.{◌≡◌, IfOk};
ghost use Rattle.mentions_arranging.specs.Positioned.{positioned_cite, positioned_cites};

use crate::request::{FinalCite, RequestedCite};
use mentions_blocks::blocks::PlacedCite;
use mentions_notes::repeats::Position;
use std::alloc::{AllocError, Global};

/// A cite in the final order of its request, with its position.
#[derive(Clone, Copy)]
pub struct PositionedCite<L> {
    pub placed: PlacedCite,
    pub position: Position,
    pub cite: RequestedCite<L>,
}

fn positioned_cite<L: Copy>(cite: &FinalCite<L>, position: Position) -> PositionedCite<L>
    ensures { result ≡ positioned_cite cite.now position }
{
    PositionedCite {
        placed: cite.placed,
        position,
        cite: cite.cite,
    }
}

/// The cites of a request with their positions, as many as have both.
///
/// # Errors
///
/// Where memory is refused.
pub fn positioned_cites<L: Copy>(
    alloc: Global,
    cites: &[FinalCite<L>],
    positions: &[Position],
) -> Result<Vec<PositionedCite<L>>, AllocError>
    ensures { IfOk result (λ v. v.items ≡ positioned_cites cites.now positions.now) }
{
    cites
        .iter()
        .zip(positions)
        .map(|(cite, position)| positioned_cite(cite, *position))
        .collect(alloc)
}

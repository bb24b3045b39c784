//! Where an entry is cited first.
ghost use Rattle.std.specs.Prelude.{◌≡◌, ⊤};

use driver_passes::acyclic::AcyclicRequest;
use mentions_notes::notes::CiteNotes;
use std::alloc::AllocError;

/// The home of an entry: the first of all cites of it, in the order in which they are handed in.
pub struct Home<'r, 'a, T, P> {
    /// The request that it stands in.
    pub request: AcyclicRequest<'r, 'a, T, P>,
    /// Its place in the items of that request.
    pub place: usize,
    /// The entry, as it is cited there.
    pub entry: &'a T,
    /// What is known of it by the cites before it.
    pub notes: CiteNotes,
}

impl<'r, 'a, T, P> Clone for Home<'r, 'a, T, P> {
    ghost is_clone = { λ s r. r ≡ s };

    ghost is_infallible = { λ _. ⊤ };

    fn clone(&self) -> Result<Home<'r, 'a, T, P>, AllocError> {
        Ok(*self)
    }
}

impl<'r, 'a, T, P> Copy for Home<'r, 'a, T, P> {}

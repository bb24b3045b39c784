//! What is answered: requests without rings, and the entries that they cite.
ghost use Rattle.std.specs.Prelude.{◌≡◌, ⊤};
ghost use Rattle.std.specs.Coded.{Coded-set};
ghost use Rattle.std.proofs.Props.{props};
ghost use Rattle.csl_driver.specs.Answer.{used_order};
ghost use Rattle.csl_driver.specs.Cited.{IsCitedBy};
ghost use Rattle.driver_passes.specs.RequestView.{requests_view, wanted_view};

use crate::cited::Cited;
use csl_base::entry::EntryLike;
use driver_passes::acyclic::{AcyclicBibliographyRequest, AcyclicRequests};
use std::alloc::AllocError;

/// Requests and a bibliography whose styles have no rings, and the entries that these requests
/// cite.
pub(crate) struct Draft<'d, 'o, 'a, T: EntryLike, P> {
    pub(crate) requests: AcyclicRequests<'d, 'a, T, P>,
    pub(crate) wanted: AcyclicBibliographyRequest<'d, 'o, 'a, T>,
    pub(crate) cited: &'d Cited<'a, T>,
    pub(crate) ghost known: { IsCitedBy T.eq (requests_view requests.requests.now)
        (used_order (wanted_view wanted.wanted.now)) cited.now } by { Prim.hlevel (props, Coded-set T.code) },
}

impl<'d, 'o, 'a, T: EntryLike, P> Clone for Draft<'d, 'o, 'a, T, P> {
    ghost is_clone = { λ s r. r ≡ s };

    ghost is_infallible = { λ _. ⊤ };

    fn clone(&self) -> Result<Draft<'d, 'o, 'a, T, P>, AllocError> {
        Ok(*self)
    }
}

impl<'d, 'o, 'a, T: EntryLike, P> Copy for Draft<'d, 'o, 'a, T, P> {}

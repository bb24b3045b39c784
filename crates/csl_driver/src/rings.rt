//! Styles whose macros call each other in a ring are refused before anything is rendered.
ghost use Rattle.std.specs.Prelude.{◌≡◌, IfOk, IfErr, IfSome, None};
ghost use Rattle.driver_passes.specs.RequestView.{requests_view, wanted_view};
ghost use Rattle.csl_driver.specs.Rings.{IsFirstRingAt, NoRingIn, RefusesRing};

use crate::error::{DriverError, RingLocation};
use driver_passes::acyclic::{AcyclicBibliographyRequest, AcyclicRequests};
use driver_passes::request::{BibliographyRequest, CitationRequest};
use std::alloc::{AllocError, Global};

/// The same requests, if no style has a ring. Else the first that has one is refused: those of the
/// requests in their order, and then that of the bibliography. Prepared styles have none, and
/// aren't looked at.
pub(crate) fn without_rings<'r, 'w, 'o, 'a, T, P>(
    alloc: Global,
    requests: &'r [CitationRequest<'a, T, P>],
    wanted: &'w BibliographyRequest<'o, 'a, T>,
) -> Result<
    (
        AcyclicRequests<'r, 'a, T, P>,
        AcyclicBibliographyRequest<'w, 'o, 'a, T>,
    ),
    DriverError,
>
    ensures requests { IfOk result (λ r. r.0.requests.now ≡ requests.now) }
    ensures wanted { IfOk result (λ r. r.1.wanted.now ≡ wanted.now) }
    ensures refused { IfErr result
        (RefusesRing (requests_view requests.now) (wanted_view wanted.now).style) }
{
    if let Some((k, macro_index)) = request_ring(alloc, requests)? {
        let place = RingLocation::Request(k);
        return Err(DriverError::MacroRing { place, macro_index });
    }
    if let Some(macro_index) = wanted.source().ring(alloc)? {
        let place = RingLocation::Bibliography;
        return Err(DriverError::MacroRing { place, macro_index });
    }
    Ok((
        AcyclicRequests { requests },
        AcyclicBibliographyRequest { wanted },
    ))
}

/// The index of the first request whose style has a ring, and that of its first macro on one.
fn request_ring<T, P>(
    alloc: Global,
    requests: &[CitationRequest<'_, T, P>],
) -> Result<Option<(usize, usize)>, AllocError>
    ensures found { IfOk result
        (λ r. IfSome r (λ p. IsFirstRingAt (requests_view requests.now) p.0 p.1)) }
    ensures none { IfOk result (λ r. r ≡ None → NoRingIn (requests_view requests.now)) }
{
    for (k, request) in requests.iter().enumerate() {
        if let Some(macro_index) = request.source().ring(alloc)? {
            return Ok(Some((k, macro_index)));
        }
    }
    Ok(None)
}

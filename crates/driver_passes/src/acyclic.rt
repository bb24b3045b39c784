//! Requests whose styles have no ring of macros, so that their cites can be rendered.
ghost use Rattle.std.specs.Prelude.{◌≡◌, ◌<◌, ⊤, All, Some, length, slice_get};
ghost use Rattle.value_styles.specs.Ring.{HasNoRing};
ghost use Rattle.driver_lookup.specs.SourceView.{source_view};
ghost use Rattle.driver_passes.specs.Request.{source_of, wanted_source};
ghost use Rattle.driver_passes.specs.RequestView.{request_view, requests_view, wanted_view};

use crate::request::{BibliographyRequest, CitationRequest};
use driver_lookup::lookup::StyleLocales;
use std::alloc::AllocError;

/// A request whose style has no macros that call each other in a ring.
pub struct AcyclicRequest<'r, 'a, T, P> {
    pub request: &'r CitationRequest<'a, T, P>,
    pub ghost no_ring: { HasNoRing (request_view request.now).style.macros },
}

/// Requests whose styles have no macros that call each other in a ring.
pub struct AcyclicRequests<'r, 'a, T, P> {
    pub requests: &'r [CitationRequest<'a, T, P>],
    pub ghost no_ring: { All (λ r. HasNoRing r.style.macros) (requests_view requests.now) },
}

/// A request for a bibliography whose style has none either.
pub struct AcyclicBibliographyRequest<'w, 'o, 'a, T> {
    pub wanted: &'w BibliographyRequest<'o, 'a, T>,
    pub ghost no_ring: { HasNoRing (wanted_view wanted.now).style.macros },
}

impl<'r, 'a, T, P> Clone for AcyclicRequest<'r, 'a, T, P> {
    ghost is_clone = { λ s r. r ≡ s };

    ghost is_infallible = { λ _. ⊤ };

    fn clone(&self) -> Result<AcyclicRequest<'r, 'a, T, P>, AllocError> {
        Ok(*self)
    }
}

impl<'r, 'a, T, P> Copy for AcyclicRequest<'r, 'a, T, P> {}

impl<'r, 'a, T, P> AcyclicRequest<'r, 'a, T, P> {
    /// The style that its cites are written in, with its locales.
    pub fn source(self) -> StyleLocales<'r>
        ensures source { source_view result ≡ source_of (request_view self.entry.request.now) }
        ensures no_ring { HasNoRing (source_view result).style.macros }
    {
        self.request.source()
    }
}

impl<'r, 'a, T, P> Clone for AcyclicRequests<'r, 'a, T, P> {
    ghost is_clone = { λ s r. r ≡ s };

    ghost is_infallible = { λ _. ⊤ };

    fn clone(&self) -> Result<AcyclicRequests<'r, 'a, T, P>, AllocError> {
        Ok(*self)
    }
}

impl<'r, 'a, T, P> Copy for AcyclicRequests<'r, 'a, T, P> {}

impl<'r, 'a, T, P> AcyclicRequests<'r, 'a, T, P> {
    /// The request of this place.
    pub fn at(self, place: usize) -> AcyclicRequest<'r, 'a, T, P>
        requires { place < length self.requests.now }
        ensures { slice_get (requests_view self.entry.requests.now) place
            ≡ Some (request_view result.request.now) }
    {
        AcyclicRequest {
            request: &self.requests[place],
        }
    }
}

impl<'w, 'o, 'a, T> Clone for AcyclicBibliographyRequest<'w, 'o, 'a, T> {
    ghost is_clone = { λ s r. r ≡ s };

    ghost is_infallible = { λ _. ⊤ };

    fn clone(&self) -> Result<AcyclicBibliographyRequest<'w, 'o, 'a, T>, AllocError> {
        Ok(*self)
    }
}

impl<'w, 'o, 'a, T> Copy for AcyclicBibliographyRequest<'w, 'o, 'a, T> {}

impl<'w, 'o, 'a, T> AcyclicBibliographyRequest<'w, 'o, 'a, T> {
    /// The style of the bibliography, with its locales.
    pub fn source(self) -> StyleLocales<'w>
        ensures source { source_view result ≡ wanted_source (wanted_view self.entry.wanted.now) }
        ensures no_ring { HasNoRing (source_view result).style.macros }
    {
        self.wanted.source()
    }
}

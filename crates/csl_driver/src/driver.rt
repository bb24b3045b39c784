//! The driver.
ghost use Rattle.std.specs.Prelude.{◌≡◌, [], OnOk, OnErr, IfErr};
ghost use Rattle.csl_driver.specs.DriverView.{driver_view};
ghost use Rattle.csl_driver.specs.Driver.{with_request};
ghost use Rattle.driver_passes.specs.RequestView.{request_view, requests_view};

use crate::error::CitationRefused;
use driver_passes::places::number_items;
use driver_passes::request::CitationRequest;
use std::alloc::Global;

/// Takes requests for citations, one after another, and answers them all at once.
pub struct BibliographyDriver<'a, T, P> {
    pub(crate) citations: Vec<CitationRequest<'a, T, P>>,
    pub(crate) citation_number_offset: usize,
    pub(crate) alloc: Global,
}

/// Drops requests one by one: a list of lists that hold references to a type parameter can't be
/// dropped as a whole.
fn discard<T, P: Drop>(mut requests: Vec<CitationRequest<'_, T, P>>) {
    while let Some(_request) = requests.pop() {}
    requests.destroy_empty();
}

impl<'a, T, P: Drop> Drop for BibliographyDriver<'a, T, P> {
    fn drop(self) {
        let BibliographyDriver {
            citations,
            citation_number_offset: _,
            alloc: _,
        } = self;
        discard(citations);
    }
}

impl<'a, T, P: Drop> BibliographyDriver<'a, T, P> {
    /// A driver without requests, whose numbers begin at 0. It takes no memory.
    pub fn new(alloc: Global) -> BibliographyDriver<'a, T, P>
        ensures { driver_view result ≡ record { requests = []; offset = 0 } }
    {
        BibliographyDriver {
            citations: Vec::new(alloc),
            citation_number_offset: 0,
            alloc,
        }
    }

    /// The driver, with citation numbers that begin at `offset`. What is printed is the number plus
    /// one.
    pub fn with_citation_number_offset(self, offset: usize) -> BibliographyDriver<'a, T, P>
        ensures { driver_view result ≡ record (driver_view self.entry) { offset = offset } }
    {
        let BibliographyDriver {
            citations,
            citation_number_offset: _,
            alloc,
        } = self;
        BibliographyDriver {
            citations,
            citation_number_offset: offset,
            alloc,
        }
    }

    /// Takes a request, behind those that came before. It is refused only where the list of
    /// requests couldn't grow; then it comes back as it was, and the driver is as it was.
    pub fn citation(
        &mut self,
        mut request: CitationRequest<'a, T, P>,
    ) -> Result<(), CitationRefused<'a, T, P>>
        ensures added { OnOk result
            (driver_view self.new
            ≡ with_request (driver_view self.old) (request_view request.entry)) }
        ensures refused { IfErr result (λ e. e.request ≡ request.entry) }
        ensures unchanged { OnErr result (driver_view self.new ≡ driver_view self.old) }
    {
        if let Err(_) = self.citations.try_reserve(1) {
            return Err(CitationRefused { request });
        }
        number_items(&mut request.items);
        let _ = self.citations.push(request);
        Ok(())
    }
}

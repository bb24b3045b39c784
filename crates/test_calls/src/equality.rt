//! Cites compared with their copies, and requests with others.

use csl_base::entry::PlainEntry;
use csl_driver::request::{BibliographyRequest, CitationRequest};
use std::alloc::AllocError;
use std::convert::Infallible;

type Request<'e> = CitationRequest<'e, PlainEntry, Infallible>;

/// A word for whether two things are equal.
pub fn word(equal: bool) -> &'static str {
    if equal { "equal" } else { "other" }
}

/// Whether copies of the cites are equal to them.
fn are_copied(request: &Request<'_>) -> Result<bool, AllocError> {
    for item in &request.items {
        if item.clone()? != *item {
            return Ok(false);
        }
    }
    Ok(true)
}

/// Prints whether copies of the cites of each request are equal to them.
pub fn print_copies(rt: &impl Print, requests: &[Request<'_>]) -> Result<(), AllocError> {
    for request in requests {
        let _ = println!(rt; "copies: {}", word(are_copied(request)?));
    }
    Ok(())
}

/// Prints of each request but the first whether it is equal to that.
pub fn print_requests(rt: &impl Print, requests: &[Request<'_>]) {
    if let Some((first, others)) = requests.split_first() {
        for request in others {
            let _ = println!(rt; "request: {}", word(*request == *first));
        }
    }
}

/// Prints whether what is asked of the bibliography is its style alone.
pub fn print_wanted(rt: &impl Print, wanted: &BibliographyRequest<'_, '_, PlainEntry>) {
    let plain = BibliographyRequest::new(wanted.style, None, &[]);
    let _ = println!(rt; "bibliography: {}", word(*wanted == plain));
}

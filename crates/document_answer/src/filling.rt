//! The driver of a document, and what it is asked.
ghost use Rattle.std.specs.Prelude.{◌≡◌, Some, map, option_map, slice_get, IfOk, IfErr, OnOk};
ghost use Rattle.csl_driver.specs.Driver.{with_request};
ghost use Rattle.csl_driver.specs.DriverView.{driver_view};
ghost use Rattle.driver_passes.specs.RequestView.{entries_view, order_view, request_view, wanted_view};
ghost use Rattle.document_requests.specs.Form.{request_with};
ghost use Rattle.document_requests.specs.Indexes.{each_of, order_at};
ghost use Rattle.document_requests.specs.JobView.{asked_bibliography_view};
ghost use Rattle.document_requests.specs.Targets.{files_in, requests_in, style_in};
ghost use Rattle.document_answer.specs.Run.{IsMissing, accepted};
ghost use Rattle.document_answer.specs.Filled.{wanted_with};

use crate::error::RunError;
use csl_base::entry::PlainEntry;
use csl_driver::driver::BibliographyDriver;
use csl_driver::request::{BibliographyRequest, Order};
use document_requests::requests::{
    AskedRequest, Request, Targets, Wanted, copied_code, driver_request,
};
use std::alloc::Global;
use std::convert::Infallible;

/// Hands a request to the driver.
fn take<'e>(
    driver: &mut BibliographyDriver<'e, PlainEntry, Infallible>,
    request: Request<'e>,
) -> Result<(), RunError>
    ensures taken { OnOk result (driver_view driver.new
        ≡ with_request (driver_view driver.old) (request_view request.entry)) }
    ensures memory { IfErr result (λ e. e ≡ RunError.OutOfMemory) }
{
    match driver.citation(request) {
        Ok(()) => Ok(()),
        Err(_) => Err(RunError::OutOfMemory),
    }
}

/// A driver that has taken these requests, in their order. Its numbers start at the offset.
///
/// # Errors
/// `Document` where an index of a request points to nothing; `OutOfMemory` where memory is refused.
pub fn filled_driver<'e, 'f: 'e>(
    alloc: Global,
    requests: &'e [AskedRequest],
    targets: Targets<'e, 'f>,
    offset: usize,
) -> Result<BibliographyDriver<'e, PlainEntry, Infallible>, RunError>
    ensures requests { IfOk result (λ d. option_map
        (λ rs. accepted (map (request_with (files_in targets.entry)) rs))
        (requests_in targets.entry requests.now) ≡ Some (driver_view d).requests) }
    ensures offset { IfOk result (λ d. (driver_view d).offset ≡ offset) }
    ensures missing { IfErr result (IsMissing (requests_in targets.entry requests.now)) }
{
    let mut driver = BibliographyDriver::new(alloc).with_citation_number_offset(offset);
    for request in requests {
        match driver_request(alloc, request, targets)? {
            Some(made) => take(&mut driver, made)?,
            None => return Err(RunError::Document),
        }
    }
    Ok(driver)
}

/// The entries in the order that the bibliography's request has, where it has one.
///
/// # Errors
/// `Document` where an index of the order points to nothing; `OutOfMemory` where memory is refused.
pub fn bibliography_order<'e>(
    alloc: Global,
    wanted: &Wanted,
    entries: &'e [PlainEntry],
) -> Result<Option<Vec<&'e PlainEntry>>, RunError>
    ensures order { IfOk result (λ order. order_at (slice_get entries.now)
        (asked_bibliography_view wanted.now).order
        ≡ Some (option_map (λ v. entries_view v.items) order)) }
    ensures missing { IfErr result (IsMissing (order_at (slice_get entries.now)
        (asked_bibliography_view wanted.now).order)) }
{
    match &wanted.order {
        Some(order) => Ok(Some(entries_at(alloc, order, entries)?)),
        None => Ok(None),
    }
}

fn entries_at<'e>(
    alloc: Global,
    indexes: &[usize],
    entries: &'e [PlainEntry],
) -> Result<Vec<&'e PlainEntry>, RunError>
    ensures entries { IfOk result (λ v. each_of (slice_get entries.now) indexes.now
        ≡ Some (entries_view v.items)) }
    ensures missing { IfErr result (IsMissing (each_of (slice_get entries.now) indexes.now)) }
{
    let mut pointed_to = Vec::with_capacity(alloc, indexes.len())?;
    for index in indexes {
        match entries.get(*index) {
            Some(entry) => pointed_to.push(entry)?,
            None => return Err(RunError::Document),
        }
    }
    Ok(pointed_to)
}

fn order_of<'o, 'e>(entries: &'o Option<Vec<&'e PlainEntry>>) -> Option<Order<'o, 'e, PlainEntry>>
    ensures { order_view result ≡ option_map (λ v. entries_view v.items) entries.now }
{
    match entries {
        Some(entries) => Some(Order(entries.as_slice())),
        None => None,
    }
}

/// What a driver is asked of the bibliography, with entries in this order.
///
/// # Errors
/// `Document` where the index of the style points to nothing; `OutOfMemory` where memory is
/// refused.
pub fn bibliography_request<'o, 'e, 'f: 'e>(
    alloc: Global,
    wanted: &Wanted,
    order: &'o Option<Vec<&'e PlainEntry>>,
    targets: Targets<'e, 'f>,
) -> Result<BibliographyRequest<'o, 'e, PlainEntry>, RunError>
    ensures wanted { IfOk result (λ request. option_map
        (wanted_with (asked_bibliography_view wanted.now).locale (files_in targets.entry)
        (option_map (λ v. entries_view v.items) order.now))
        (style_in targets.entry wanted.now.style)
        ≡ Some (wanted_view request)) }
    ensures missing { IfErr result (IsMissing (style_in targets.entry wanted.now.style)) }
{
    let Some(found) = targets.styles.get(wanted.style) else {
        return Err(RunError::Document);
    };
    let locale = copied_code(alloc, &wanted.locale)?;
    let files = targets.files;
    match found.prepared() {
        Some(prepared) => Ok(BibliographyRequest::of_prepared(
            prepared,
            locale,
            files,
            order_of(order),
        )),
        None => Ok(BibliographyRequest::ordered(
            found.style,
            locale,
            files.locales(),
            order_of(order),
        )),
    }
}

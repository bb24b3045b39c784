//! A document's requests, handed to the driver one by one.

use crate::account::{print_account, print_csl_account, print_refusal};
use crate::asking::{Asking, Driver, Seen};
use crate::costs::{Answer, Call, Costs, call_of, finished};
use crate::equality::{print_copies, print_requests, print_wanted, word};
use crate::passes::by_passes;
use crate::printing::{print_answer, print_data};
use crate::ways::How;
use csl_base::entry::PlainEntry;
use csl_driver::error::{CitationRefused, DriverError};
use csl_driver::rendered::Rendered;
use csl_driver::request::{BibliographyRequest, CitationRequest};
use csl_driver::standalone::standalone_citation;
use document_answer::error::RunError;
use document_requests::requests::{AskedRequest, Targets, driver_request};
use document_requests::rounds::Rounds;
use std::alloc::{AllocError, Global};
use std::convert::Infallible;

type Request<'e> = CitationRequest<'e, PlainEntry, Infallible>;

/// Hands in all requests and the bibliography's, and prints what is asked for.
pub fn answer_all<'e, 'f: 'e>(
    rt: &(impl Print + Eprint + AllocGlobal),
    asking: Asking<'e, 'f>,
    how: How,
) -> Result<Seen, RunError> {
    let alloc = rt.alloc();
    let job = &asking.document.job;
    let mut driver = Driver::new(alloc).with_citation_number_offset(job.offset);
    let is_prepared = !matches!(how, How::FinishUnprepared);
    let came_back = take_all(rt, &mut driver, asking, is_prepared)?;
    let _ = eprintln!(rt; "prepare");
    let order = asking.order(alloc)?;
    let request = bibliography_asked(alloc, asking, &order, is_prepared)?;
    print_asked(rt, driver, request, job.rounds, how)?;
    if came_back {
        Ok(Seen::AnswerAtLast)
    } else {
        Ok(Seen::Answer)
    }
}

/// Hands in all requests; whether one came back.
fn take_all<'e, 'f: 'e>(
    rt: &(impl Print + Eprint + AllocGlobal),
    driver: &mut Driver<'e>,
    asking: Asking<'e, 'f>,
    is_prepared: bool,
) -> Result<bool, RunError> {
    let mut came_back = false;
    for request in &asking.document.job.requests {
        let _ = eprintln!(rt; "prepare");
        let made = request_of(rt.alloc(), request, asking.targets, is_prepared)?;
        let _ = eprintln!(rt; "citation");
        came_back |= take(driver, made)?;
    }
    Ok(came_back)
}

/// A request for the driver: of the prepared style, if there is one, or of the style itself.
fn request_of<'e, 'f: 'e>(
    alloc: Global,
    request: &'e AskedRequest,
    targets: Targets<'e, 'f>,
    is_prepared: bool,
) -> Result<Request<'e>, RunError> {
    let made = prepared_request(alloc, request, targets)?;
    Ok(if is_prepared { made } else { made.unprepared() })
}

/// A request for the driver, of the prepared style if there is one.
fn prepared_request<'e, 'f: 'e>(
    alloc: Global,
    request: &'e AskedRequest,
    targets: Targets<'e, 'f>,
) -> Result<Request<'e>, RunError> {
    match driver_request(alloc, request, targets)? {
        Some(made) => Ok(made),
        None => Err(RunError::Document),
    }
}

/// Hands in a request, and once more where it comes back; whether it did.
fn take<'e>(driver: &mut Driver<'e>, request: Request<'e>) -> Result<bool, RunError> {
    match driver.citation(request) {
        Ok(()) => Ok(false),
        Err(refused) => {
            let CitationRefused { request } = refused;
            take_again(driver, request)
        }
    }
}

fn take_again<'e>(driver: &mut Driver<'e>, request: Request<'e>) -> Result<bool, RunError> {
    match driver.citation(request) {
        Ok(()) => Ok(true),
        Err(refused) => {
            drop(refused);
            Err(RunError::OutOfMemory)
        }
    }
}

/// What the driver is asked of the bibliography: of the prepared style, if there is one, or of the
/// style itself.
fn bibliography_asked<'o, 'e, 'f: 'e>(
    alloc: Global,
    asking: Asking<'e, 'f>,
    order: &'o Option<Vec<&'e PlainEntry>>,
    is_prepared: bool,
) -> Result<BibliographyRequest<'o, 'e, PlainEntry>, RunError> {
    let made = asking.wanted(alloc, order)?;
    Ok(if is_prepared { made } else { made.unprepared() })
}

/// Prints what is asked for, or why there is no answer where the account is asked for.
fn print_asked<'e>(
    rt: &(impl Print + Eprint + AllocGlobal),
    driver: Driver<'e>,
    request: BibliographyRequest<'_, 'e, PlainEntry>,
    rounds: Rounds,
    how: How,
) -> Result<(), DriverError> {
    let printed = print_finished(rt, driver, request, rounds, how);
    if let Err(error) = &printed {
        if matches!(how, How::Account) {
            print_refusal(rt, error);
        }
    }
    printed
}

/// Answers by the call that is asked for, and prints what is asked for of the answer.
fn print_finished<'e>(
    rt: &(impl Print + Eprint + AllocGlobal),
    driver: Driver<'e>,
    request: BibliographyRequest<'_, 'e, PlainEntry>,
    rounds: Rounds,
    how: How,
) -> Result<(), DriverError> {
    let call = match how {
        How::Account => call_of(rounds),
        How::FinishCounted => Call::FinishCounted,
        How::FinishFull => Call::FinishFull,
        How::FinishCsl => Call::FinishCsl,
        _ => Call::Finish,
    };
    let answer = finished(rt, driver, request, call)?;
    let printed = print_part(rt, &answer, how);
    drop(answer);
    Ok(printed?)
}

/// Prints the answer, its account, its JSON, or whether a copy of it is equal to it.
fn print_part(
    rt: &(impl Print + Eprint + AllocGlobal),
    answer: &Answer<'_>,
    how: How,
) -> Result<(), AllocError> {
    match how {
        How::Copies => print_copy(rt, &answer.0),
        How::Data => print_data(rt, &answer.0),
        How::Account => {
            print_costs(rt, &answer.1);
            Ok(())
        }
        _ => {
            print_answer(rt, &answer.0);
            Ok(())
        }
    }
}

fn print_costs(rt: &impl Print, costs: &Costs<'_>) {
    match costs {
        Costs::Unknown => {}
        Costs::Rounds(account) => print_account(rt, account),
        Costs::Csl(account) => print_csl_account(rt, account),
    }
}

/// Prints whether a copy of the answer is equal to it.
fn print_copy(rt: &(impl Print + Eprint), rendered: &Rendered) -> Result<(), AllocError> {
    let _ = eprintln!(rt; "clone");
    let copy = rendered.clone()?;
    let is_equal = copy == *rendered;
    drop(copy);
    let _ = println!(rt; "copy: {}", word(is_equal));
    Ok(())
}

/// Answers each request by itself.
pub fn answer_alone<'e, 'f: 'e>(
    rt: &(impl Print + Eprint + AllocGlobal),
    asking: Asking<'e, 'f>,
) -> Result<Seen, RunError> {
    for request in &asking.document.job.requests {
        let _ = eprintln!(rt; "prepare");
        let made = prepared_request(rt.alloc(), request, asking.targets)?;
        let _ = eprintln!(rt; "standalone_citation");
        let tree = standalone_citation(rt.alloc(), made)?;
        let _ = println!(rt; "{tree}");
    }
    Ok(Seen::Answer)
}

/// Makes calls on the requests, and answers none.
pub fn call_with_requests<'e, 'f: 'e>(
    rt: &(impl Print + Eprint + AllocGlobal),
    asking: Asking<'e, 'f>,
    how: How,
) -> Result<Seen, RunError> {
    let requests = requests_of(rt.alloc(), asking)?;
    match how {
        How::Passes => by_passes(rt, &requests),
        _ => compare(rt, asking, &requests),
    }
}

/// The requests of a document.
fn requests_of<'e, 'f: 'e>(
    alloc: Global,
    asking: Asking<'e, 'f>,
) -> Result<Vec<Request<'e>>, RunError> {
    let mut requests = Vec::new(alloc);
    for request in &asking.document.job.requests {
        requests.push(prepared_request(alloc, request, asking.targets)?)?;
    }
    Ok(requests)
}

/// Compares cites with their copies, the requests with the first one, and that for the bibliography
/// with one for its style alone.
fn compare<'e, 'f: 'e>(
    rt: &(impl Print + AllocGlobal),
    asking: Asking<'e, 'f>,
    requests: &[Request<'e>],
) -> Result<Seen, RunError> {
    print_copies(rt, requests)?;
    print_requests(rt, requests);
    let alloc = rt.alloc();
    let order = asking.order(alloc)?;
    let wanted = asking.wanted(alloc, &order)?;
    print_wanted(rt, &wanted);
    drop(wanted);
    Ok(Seen::Answer)
}

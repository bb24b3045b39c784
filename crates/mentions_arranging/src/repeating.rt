//! Which cites repeat the one before them, as they are handed in and in the final order (CSL 1.0.2,
//! position).
ghost use Rattle.std.specs.Prelude.{◌≡◌, IfOk, map};
ghost use Rattle.mentions_notes.specs.Requests.{requests_view as repeating_view};
ghost use Rattle.mentions_arranging.specs.Repeating.{
  all_repeated,
  cites_repeated,
  final_positions,
  first_repeated,
  firsts_repeated,
  handed_positions,
  handed_request,
  is_looked_at,
  placed_cite,
  repeated_at,
  repeated_where,
  repeating_cite,
  repeating_request,
};
ghost use Rattle.mentions_arranging.specs.Requests.{request_view, requests_view};

use crate::order::is_grouped;
use crate::request::{CiteRequest, FinalCite, RequestFacts, RequestedCite};
use mentions_notes::repeats::{PlacedCite, PlacedRequest, Position, positions_of};
use std::alloc::{AllocError, Global};

/// The mention of its entry that a cite repeats, as it is written in the position of the cite.
#[derive(Clone, Copy)]
pub struct Repeated {
    /// The index of the entry.
    pub entry: usize,
    /// Whether it is the first mention of the entry; else it is the later one.
    pub is_first: bool,
    /// How the cite repeats the one before it.
    pub position: Position,
}

fn placed_cite<L: Copy>(cite: &RequestedCite<L>) -> PlacedCite<L>
    ensures { result ≡ placed_cite cite.now }
{
    PlacedCite {
        entry: cite.entry,
        locator: cite.locator,
    }
}

fn handed_cites<L: Copy>(
    alloc: Global,
    cites: &[RequestedCite<L>],
) -> Result<Vec<PlacedCite<L>>, AllocError>
    ensures { IfOk result (λ v. v.items ≡ map placed_cite cites.now) }
{
    cites.iter().map(|cite| placed_cite(cite)).collect(alloc)
}

fn repeating_cite<L: Copy>(cite: &FinalCite<L>) -> PlacedCite<L>
    ensures { result ≡ repeating_cite cite.now }
{
    placed_cite(&cite.cite)
}

fn repeating_cites<L: Copy>(
    alloc: Global,
    cites: &[FinalCite<L>],
) -> Result<Vec<PlacedCite<L>>, AllocError>
    ensures { IfOk result (λ v. v.items ≡ map repeating_cite cites.now) }
{
    cites.iter().map(|cite| repeating_cite(cite)).collect(alloc)
}

fn handed_requests<L: Copy>(
    alloc: Global,
    requests: &[CiteRequest<RequestedCite<L>>],
) -> Result<Vec<PlacedRequest<L>>, AllocError>
    ensures { IfOk result (λ v. repeating_view v.items
        ≡ map handed_request (requests_view requests.now)) }
{
    let mut found = Vec::with_capacity(alloc, requests.len())?;
    for request in requests {
        found.push(PlacedRequest {
            note: request.facts.note,
            cites: handed_cites(alloc, &request.cites)?,
        })?;
    }
    Ok(found)
}

fn repeating_requests<L: Copy>(
    alloc: Global,
    requests: &[CiteRequest<FinalCite<L>>],
) -> Result<Vec<PlacedRequest<L>>, AllocError>
    ensures { IfOk result (λ v. repeating_view v.items
        ≡ map repeating_request (requests_view requests.now)) }
{
    let mut found = Vec::with_capacity(alloc, requests.len())?;
    for request in requests {
        found.push(PlacedRequest {
            note: request.facts.note,
            cites: repeating_cites(alloc, &request.cites)?,
        })?;
    }
    Ok(found)
}

/// The positions of all cites as they are handed in, by request and by place in it.
fn handed_positions<L: Copy + PartialEq>(
    alloc: Global,
    requests: &[CiteRequest<RequestedCite<L>>],
) -> Result<Vec<Vec<Position>>, AllocError>
    ensures { IfOk result (λ v. map (λ p. p.items) v.items
        ≡ handed_positions L.eq (requests_view requests.now)) }
{
    let handed = handed_requests(alloc, requests)?;
    positions_of(alloc, &handed)
}

/// The positions of all cites in their final order, by request and by place in it
/// (`mentions_notes::repeats::positions_of`). A hidden cite counts as any other.
///
/// # Errors
///
/// Where memory is refused.
pub fn final_positions<L: Copy + PartialEq>(
    alloc: Global,
    requests: &[CiteRequest<FinalCite<L>>],
) -> Result<Vec<Vec<Position>>, AllocError>
    ensures { IfOk result (λ v. map (λ p. p.items) v.items
        ≡ final_positions L.eq (requests_view requests.now)) }
{
    let repeating = repeating_requests(alloc, requests)?;
    positions_of(alloc, &repeating)
}

/// Whether what cites show counts: in a request of two or more, whose style groups or collapses
/// them.
fn is_looked_at(facts: RequestFacts, count: usize) -> bool
    ensures { result ≡ is_looked_at facts count }
{
    1 < count && (is_grouped(facts.style) || facts.style.collapse.is_some())
}

/// The mention that a cite repeats in a position, if it repeats any.
fn repeated_at<L>(cite: &RequestedCite<L>, position: Position) -> Option<Repeated>
    ensures { result ≡ repeated_at cite.now position }
{
    match position {
        Position::Different => None,
        Position::Ibid | Position::IbidWithLocator => Some(Repeated {
            entry: cite.entry,
            is_first: cite.is_first,
            position,
        }),
    }
}

/// The same, where what the cite shows counts.
fn repeated_where<L>(looked: bool, cite: &RequestedCite<L>, position: Position) -> Option<Repeated>
    ensures { result ≡ repeated_where looked (cite.now, position) }
{
    if looked {
        repeated_at(cite, position)
    } else {
        None
    }
}

/// The mention that the first cite of a request repeats.
fn first_repeated<L>(
    request: &CiteRequest<RequestedCite<L>>,
    positions: &[Position],
) -> Option<Repeated>
    ensures { result ≡ first_repeated (request_view request.now, positions.now) }
{
    let looked = is_looked_at(request.facts, request.cites.len());
    match (request.cites.first(), positions.first()) {
        (Some(cite), Some(position)) => repeated_where(looked, cite, *position),
        _ => None,
    }
}

/// The mentions that the first cites of requests repeat, which are handed in so: none where the
/// first cite repeats no cite, or what cites show doesn't count.
///
/// # Errors
///
/// Where memory is refused.
pub fn firsts_repeated<L: Copy + PartialEq>(
    alloc: Global,
    requests: &[CiteRequest<RequestedCite<L>>],
) -> Result<Vec<Option<Repeated>>, AllocError>
    ensures { IfOk result (λ v. v.items ≡ firsts_repeated L.eq (requests_view requests.now)) }
{
    let positions = handed_positions(alloc, requests)?;
    let count = requests.len().min(positions.len());
    let mut found = Vec::with_capacity(alloc, count)?;
    for k in 0..count {
        found.push(first_repeated(&requests[k], &positions[k]))?;
    }
    Ok(found)
}

/// The mentions that the cites of a request repeat, in their final order.
fn all_repeated<L: Copy>(
    alloc: Global,
    request: &CiteRequest<FinalCite<L>>,
    positions: &[Position],
) -> Result<Vec<Option<Repeated>>, AllocError>
    ensures { IfOk result (λ v. v.items
        ≡ all_repeated (request_view request.now, positions.now)) }
{
    let looked = is_looked_at(request.facts, request.cites.len());
    request
        .cites
        .iter()
        .zip(positions)
        .map(|(cite, position)| repeated_where(looked, &cite.cite, *position))
        .collect(alloc)
}

/// The mentions that all cites repeat, by request and by place in its final order: none where a
/// cite repeats no cite, or what cites show doesn't count.
///
/// # Errors
///
/// Where memory is refused.
pub fn cites_repeated<L: Copy + PartialEq>(
    alloc: Global,
    requests: &[CiteRequest<FinalCite<L>>],
) -> Result<Vec<Vec<Option<Repeated>>>, AllocError>
    ensures { IfOk result (λ v. map (λ r. r.items) v.items
        ≡ cites_repeated L.eq (requests_view requests.now)) }
{
    let positions = final_positions(alloc, requests)?;
    let count = requests.len().min(positions.len());
    let mut found = Vec::with_capacity(alloc, count)?;
    for k in 0..count {
        found.push(all_repeated(alloc, &requests[k], &positions[k])?)?;
    }
    Ok(found)
}

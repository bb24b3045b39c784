//! The final order of cites (CSL 1.0.2, cite grouping).
ghost use Rattle.std.specs.Prelude.{◌≡◌, ◌<◌, All, IfOk, length, map};
ghost use Rattle.std.specs.List.{range_with_len};
ghost use Rattle.std.specs.List.Sorted.{IsPermutation};
ghost use Rattle.mentions_blocks.specs.Blocks.{block_order};
ghost use Rattle.mentions_arranging.specs.Order.{cites_in_order, collapses_years, final_cites, final_order, final_request, grouped_cite, handed_order, is_grouped};
ghost use Rattle.mentions_arranging.specs.Requests.{requests_view};

use crate::request::{CiteRequest, CiteStyle, FinalCite, RequestedCite};
use mentions_blocks::blocks::{GroupedCite, PlacedCite, block_order};
use std::alloc::{AllocError, Global};
use value_styles::style::Collapse;

/// Whether the years of blocks collapse.
pub(crate) fn collapses_years(collapse: Option<Collapse>) -> bool
    ensures { result ≡ collapses_years collapse }
{
    matches!(
        collapse,
        Some(Collapse::Year | Collapse::YearSuffix | Collapse::YearSuffixRanged)
    )
}

/// Whether a style brings cites with the same names together.
pub(crate) fn is_grouped(style: CiteStyle) -> bool
    ensures { result ≡ is_grouped style }
{
    style.has_group_delimiter || collapses_years(style.collapse)
}

/// A cite as it is grouped: a hidden one as if it had no names.
fn grouped_cite<L>(cite: &RequestedCite<L>) -> GroupedCite
    ensures { result ≡ grouped_cite cite.now }
{
    GroupedCite {
        names: if cite.hidden { None } else { cite.key },
        apart: cite.apart,
    }
}

fn grouped_cites<L>(
    alloc: Global,
    cites: &[RequestedCite<L>],
) -> Result<Vec<GroupedCite>, AllocError>
    ensures { IfOk result (λ v. v.items ≡ map grouped_cite cites.now) }
{
    cites.iter().map(|cite| grouped_cite(cite)).collect(alloc)
}

/// The order of cites that are grouped.
fn order_in_blocks<L>(
    alloc: Global,
    cites: &[RequestedCite<L>],
) -> Result<Vec<PlacedCite>, AllocError>
    ensures order { IfOk result (λ v. v.items ≡ block_order (map grouped_cite cites.now)) }
    ensures once { IfOk result (λ v. IsPermutation (range_with_len 0 (length cites.now))
        (map (λ p. p.place) v.items)) }
{
    let grouped = grouped_cites(alloc, cites)?;
    block_order(alloc, &grouped)
}

/// The order in which so many cites were handed in, each one a block of its own.
fn handed_order(alloc: Global, count: usize) -> Result<Vec<PlacedCite>, AllocError>
    ensures order { IfOk result (λ v. v.items ≡ handed_order count) }
    ensures once { IfOk result (λ v. IsPermutation (range_with_len 0 count)
        (map (λ p. p.place) v.items)) }
{
    let mut order = Vec::with_capacity(alloc, count)?;
    for place in 0..count {
        order.push(PlacedCite {
            place,
            block: place,
        })?;
    }
    Ok(order)
}

/// Where the cites of a request go. Where their style groups them, those with the same names stand
/// together (`mentions_blocks::blocks::block_order`), and a hidden one is as one without names. Else
/// they stay where they were handed in, each one a block of its own.
///
/// # Errors
///
/// Where memory is refused.
pub fn final_order<L>(
    alloc: Global,
    style: CiteStyle,
    cites: &[RequestedCite<L>],
) -> Result<Vec<PlacedCite>, AllocError>
    ensures order { IfOk result (λ v. v.items ≡ final_order style cites.now) }
    ensures once { IfOk result (λ v. IsPermutation (range_with_len 0 (length cites.now))
        (map (λ p. p.place) v.items)) }
{
    if is_grouped(style) {
        order_in_blocks(alloc, cites)
    } else {
        handed_order(alloc, cites.len())
    }
}

/// The cites at the places of an order.
fn cites_in_order<L: Copy>(
    alloc: Global,
    cites: &[RequestedCite<L>],
    order: &[PlacedCite],
) -> Result<Vec<FinalCite<L>>, AllocError>
    requires { All (λ p. p.place < length cites.now) order.now }
    ensures { IfOk result (λ v. v.items ≡ cites_in_order cites.now order.now) }
{
    let mut found = Vec::with_capacity(alloc, order.len())?;
    for placed in order {
        let place = placed.place;
        found.push(FinalCite {
            placed: *placed,
            cite: cites[place],
        })?;
    }
    Ok(found)
}

/// The cites of a request in their final order (`final_order`).
///
/// # Errors
///
/// Where memory is refused.
pub fn final_cites<L: Copy>(
    alloc: Global,
    style: CiteStyle,
    cites: &[RequestedCite<L>],
) -> Result<Vec<FinalCite<L>>, AllocError>
    ensures { IfOk result (λ v. v.items ≡ final_cites style cites.now) }
{
    let order = final_order(alloc, style, cites)?;
    cites_in_order(alloc, cites, &order)
}

/// The requests with their cites in their final order (`final_order`).
///
/// # Errors
///
/// Where memory is refused.
pub fn final_requests<L: Copy>(
    alloc: Global,
    requests: &[CiteRequest<RequestedCite<L>>],
) -> Result<Vec<CiteRequest<FinalCite<L>>>, AllocError>
    ensures { IfOk result (λ v. requests_view v.items
        ≡ map final_request (requests_view requests.now)) }
{
    let mut found = Vec::with_capacity(alloc, requests.len())?;
    for request in requests {
        found.push(CiteRequest {
            facts: request.facts,
            cites: final_cites(alloc, request.facts.style, &request.cites)?,
        })?;
    }
    Ok(found)
}

//! Cites as they are arranged: their positions, and how they collapse (CSL 1.0.2, cite grouping and
//! cite collapsing).
ghost use Rattle.std.specs.Prelude.{◌≡◌, IfOk, map};
ghost use Rattle.mentions_arranging.specs.Arranged.{arranged_by_years, arranged_cite, arranged_cites, arranged_request};
ghost use Rattle.mentions_arranging.specs.Collapsing.{collapse_of, collapsed_cites, years_with_ranges};
ghost use Rattle.mentions_arranging.specs.Requests.{request_view, requests_view};

use crate::positioned::{PositionedCite, positioned_cites};
use crate::ranges::cite_ranges;
use crate::repeating::final_positions;
use crate::request::{CiteRequest, FinalCite, RequestFacts};
use crate::years::block_years;
use mentions_blocks::collapsed::{CollapsedYear, YearCut, YearDelimiter, collapsed};
use mentions_blocks::years::BlockYear;
use mentions_notes::repeats::Position;
use mentions_ranges::collapsed::CollapsedCite;
use std::alloc::{AllocError, Global};
use value_styles::style::Collapse;

/// A cite as it is arranged.
#[derive(Clone, Copy)]
pub struct ArrangedCite {
    /// The place at which it was handed in.
    pub place: usize,
    /// How it stands to the one before it.
    pub position: Position,
    /// Whether it is inside a range, and so isn't shown.
    pub is_inner: bool,
    /// How much is shown of it.
    pub cut: YearCut,
    /// What stands before it.
    pub delimiter: YearDelimiter,
}

/// How the cites of a request collapse: not at all where one of them has a purpose.
fn collapse_of(facts: RequestFacts) -> Option<Collapse>
    ensures { result ≡ collapse_of facts }
{
    if facts.has_purpose {
        None
    } else {
        facts.style.collapse
    }
}

/// What blocks and ranges say of cites, together.
fn years_with_ranges(
    alloc: Global,
    years: &[BlockYear],
    ranges: &[CollapsedCite],
) -> Result<Vec<CollapsedYear>, AllocError>
    ensures { IfOk result (λ v. v.items ≡ years_with_ranges years.now ranges.now) }
{
    years
        .iter()
        .zip(ranges)
        .map(|(year, range)| collapsed(*year, *range))
        .collect(alloc)
}

/// What collapsing makes of the cites of a request, in their final order, where entries have these
/// numbers. Where some cite has a purpose nothing collapses. The cite group delimiter stands before
/// each cite that isn't the first of its part of a block, but where collapsing says another.
///
/// # Errors
///
/// Where memory is refused.
pub fn collapsed_cites<L>(
    alloc: Global,
    facts: RequestFacts,
    numbers: &[usize],
    cites: &[PositionedCite<L>],
) -> Result<Vec<CollapsedYear>, AllocError>
    ensures { IfOk result (λ v. v.items ≡ collapsed_cites facts numbers.now cites.now) }
{
    let collapse = collapse_of(facts);
    let years = block_years(alloc, facts.style, collapse, cites)?;
    let ranges = cite_ranges(alloc, collapse, numbers, cites)?;
    years_with_ranges(alloc, &years, &ranges)
}

fn arranged_cite<L>(cite: &PositionedCite<L>, year: CollapsedYear) -> ArrangedCite
    ensures { result ≡ arranged_cite cite.now year }
{
    ArrangedCite {
        place: cite.placed.place,
        position: cite.position,
        is_inner: year.is_inner,
        cut: year.cut,
        delimiter: year.delimiter,
    }
}

/// The cites of a request with these positions, as they are arranged.
fn arranged_request<L: Copy>(
    alloc: Global,
    numbers: &[usize],
    request: &CiteRequest<FinalCite<L>>,
    positions: &[Position],
) -> Result<Vec<ArrangedCite>, AllocError>
    ensures { IfOk result (λ v. v.items
        ≡ arranged_request numbers.now (request_view request.now) positions.now) }
{
    let cites = positioned_cites(alloc, &request.cites, positions)?;
    let years = collapsed_cites(alloc, request.facts, numbers, &cites)?;
    arranged_by_years(alloc, &cites, &years)
}

fn arranged_by_years<L>(
    alloc: Global,
    cites: &[PositionedCite<L>],
    years: &[CollapsedYear],
) -> Result<Vec<ArrangedCite>, AllocError>
    ensures { IfOk result (λ v. v.items ≡ arranged_by_years cites.now years.now) }
{
    cites
        .iter()
        .zip(years)
        .map(|(cite, year)| arranged_cite(cite, *year))
        .collect(alloc)
}

/// The cites of all requests as they are arranged, by request and by place in the final order: each
/// with the place at which it was handed in, its position (`final_positions`), and what collapsing
/// makes of it where entries have these numbers (`collapsed_cites`). A number that isn't there is
/// in no range.
///
/// # Errors
///
/// Where memory is refused.
pub fn arranged_cites<L: Copy + PartialEq>(
    alloc: Global,
    numbers: &[usize],
    requests: &[CiteRequest<FinalCite<L>>],
) -> Result<Vec<Vec<ArrangedCite>>, AllocError>
    ensures { IfOk result (λ v. map (λ a. a.items) v.items
        ≡ arranged_cites L.eq numbers.now (requests_view requests.now)) }
{
    let positions = final_positions(alloc, requests)?;
    let mut arranged = Vec::with_capacity(alloc, requests.len())?;
    for (k, request) in requests.iter().enumerate() {
        arranged.push(arranged_request(alloc, numbers, request, &positions[k])?)?;
    }
    Ok(arranged)
}

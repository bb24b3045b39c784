//! What blocks say of cites, and what is left out of them.
ghost use Rattle.std.specs.Prelude.{◌≡◌, IfOk, map, zip};
ghost use Rattle.std.specs.List.{enumerate_from};
ghost use Rattle.mentions_arranging.specs.Collapsing.{
  block_cite,
  block_years,
  is_year,
  names_shown,
  part_places,
  shown_cite,
  whole_in_part,
  year_collapse,
};

use crate::order::collapses_years;
use crate::positioned::PositionedCite;
use crate::request::{CiteStyle, RequestedCite};
use mentions_blocks::parts::{ShownCite, parts_of_blocks};
use mentions_blocks::years::{BlockCite, BlockDelimiter, BlockYear, YearCollapse, years_of_parts};
use std::alloc::{AllocError, Global};
use value_styles::style::Collapse;

fn is_year(collapse: Option<Collapse>) -> bool
    ensures { result ≡ is_year collapse }
{
    matches!(collapse, Some(Collapse::Year))
}

fn year_collapse(style: CiteStyle, collapse: Option<Collapse>) -> YearCollapse
    ensures { result ≡ year_collapse style collapse }
{
    YearCollapse {
        by_year: is_year(collapse),
        has_delimiter: style.has_after_collapse_delimiter,
    }
}

/// The names that a cite shows; none where its caller hides it.
fn names_shown<L>(cite: &RequestedCite<L>) -> Option<usize>
    ensures { result ≡ names_shown cite.now }
{
    if cite.hidden { None } else { cite.shown.names }
}

/// A cite by what divides blocks.
fn shown_cite<L>(cite: &PositionedCite<L>) -> ShownCite
    ensures { result ≡ shown_cite cite.now }
{
    ShownCite {
        block: cite.placed.block,
        names: names_shown(&cite.cite),
    }
}

/// The places at which the parts of cites begin, one for each cite.
fn part_places<L>(alloc: Global, cites: &[PositionedCite<L>]) -> Result<Vec<usize>, AllocError>
    ensures { IfOk result (λ v. v.items ≡ part_places cites.now) }
{
    let shown = shown_cites(alloc, cites)?;
    parts_of_blocks(alloc, &shown)
}

fn shown_cites<L>(alloc: Global, cites: &[PositionedCite<L>]) -> Result<Vec<ShownCite>, AllocError>
    ensures { IfOk result (λ v. v.items ≡ map shown_cite cites.now) }
{
    cites.iter().map(|cite| shown_cite(cite)).collect(alloc)
}

/// A cite as it collapses in the part that begins at a place.
fn block_cite<L>(part: usize, cite: &PositionedCite<L>) -> BlockCite
    ensures { result ≡ block_cite (part, cite.now) }
{
    BlockCite {
        part,
        can_be_cut: names_shown(&cite.cite).is_some() && cite.cite.shown.has_date,
        has_locator: cite.cite.locator.is_some(),
    }
}

fn block_cites<L>(
    alloc: Global,
    parts: &[usize],
    cites: &[PositionedCite<L>],
) -> Result<Vec<BlockCite>, AllocError>
    ensures { IfOk result (λ v. v.items ≡ map block_cite (zip parts.now cites.now)) }
{
    parts
        .iter()
        .zip(cites)
        .map(|(part, cite)| block_cite(*part, cite))
        .collect(alloc)
}

/// A cite at a place of the final order, whose part begins at another or there; nothing collapses.
fn whole_in_part(place: usize, part: usize) -> BlockYear
    ensures { result ≡ whole_in_part (place, part) }
{
    BlockYear {
        is_cut: false,
        delimiter: if place == part {
            BlockDelimiter::Layout
        } else {
            BlockDelimiter::Group
        },
    }
}

fn whole_in_parts(alloc: Global, parts: &[usize]) -> Result<Vec<BlockYear>, AllocError>
    ensures { IfOk result (λ v. v.items ≡ map whole_in_part (enumerate_from 0 parts.now)) }
{
    let mut years = Vec::with_capacity(alloc, parts.len())?;
    for (place, part) in parts.iter().enumerate() {
        years.push(whole_in_part(place, *part))?;
    }
    Ok(years)
}

/// What blocks say of the cites of a request, in parts that show the same names: where years
/// collapse, what these make of them (`mentions_blocks::years::years_of_parts`); else that the cite
/// group delimiter stands before each that isn't the first of its part.
pub(crate) fn block_years<L>(
    alloc: Global,
    style: CiteStyle,
    collapse: Option<Collapse>,
    cites: &[PositionedCite<L>],
) -> Result<Vec<BlockYear>, AllocError>
    ensures { IfOk result (λ v. v.items ≡ block_years style collapse cites.now) }
{
    let parts = part_places(alloc, cites)?;
    if collapses_years(collapse) {
        let blocks = block_cites(alloc, &parts, cites)?;
        years_of_parts(alloc, year_collapse(style, collapse), &blocks)
    } else {
        whole_in_parts(alloc, &parts)
    }
}

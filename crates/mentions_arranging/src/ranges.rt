//! What ranges and stretches say of cites.
ghost use Rattle.std.specs.Prelude.{◌≡◌, IfOk, map, slice_get};
ghost use Rattle.mentions_ranges.specs.NumberRanges.{number_ranges};
ghost use Rattle.mentions_ranges.specs.SuffixStretches.{suffix_stretches};
ghost use Rattle.mentions_arranging.specs.Collapsing.{cite_ranges, fits_range, numbered_cite, range_number, suffixed_cite, unranged};

use crate::positioned::PositionedCite;
use crate::request::RequestedCite;
use mentions_ranges::collapsed::{CollapsedCite, Delimiter};
use mentions_ranges::numbers::{NumberedCite, number_ranges};
use mentions_ranges::suffixes::{SuffixedCite, suffix_stretches};
use std::alloc::{AllocError, Global};
use value_styles::style::Collapse;

/// Whether a cite may be in a range of numbers.
fn fits_range<L>(cite: &RequestedCite<L>) -> bool
    ensures { result ≡ fits_range cite.now }
{
    cite.shown.has_number && !cite.hidden && cite.locator.is_none() && cite.apart.is_none()
}

/// The number of an entry, if it is there.
fn number_of(numbers: &[usize], entry: usize) -> Option<usize>
    ensures { result ≡ slice_get numbers.now entry }
{
    numbers.get(entry).copied()
}

/// The number of a cite, if it may be in a range of numbers.
fn range_number<L>(numbers: &[usize], cite: &RequestedCite<L>) -> Option<usize>
    ensures { result ≡ range_number numbers.now cite.now }
{
    if fits_range(cite) {
        number_of(numbers, cite.entry)
    } else {
        None
    }
}

fn numbered_cite<L>(numbers: &[usize], cite: &PositionedCite<L>) -> NumberedCite
    ensures { result ≡ numbered_cite numbers.now cite.now }
{
    NumberedCite {
        hidden: cite.cite.hidden,
        number: range_number(numbers, &cite.cite),
    }
}

fn numbered_cites<L>(
    alloc: Global,
    numbers: &[usize],
    cites: &[PositionedCite<L>],
) -> Result<Vec<NumberedCite>, AllocError>
    ensures { IfOk result (λ v. v.items ≡ map (numbered_cite numbers.now) cites.now) }
{
    cites
        .iter()
        .map(|cite| numbered_cite(numbers, cite))
        .collect(alloc)
}

fn suffixed_cite<L>(cite: &PositionedCite<L>) -> SuffixedCite
    ensures { result ≡ suffixed_cite cite.now }
{
    SuffixedCite {
        entry: cite.cite.entry,
        suffix: cite.cite.suffix,
        text: cite.cite.shown.text,
        names: cite.cite.shown.names,
        has_date: cite.cite.shown.has_date,
        hidden: cite.cite.hidden,
        has_locator: cite.cite.locator.is_some(),
        apart: cite.cite.apart,
    }
}

fn suffixed_cites<L>(
    alloc: Global,
    cites: &[PositionedCite<L>],
) -> Result<Vec<SuffixedCite>, AllocError>
    ensures { IfOk result (λ v. v.items ≡ map suffixed_cite cites.now) }
{
    cites.iter().map(|cite| suffixed_cite(cite)).collect(alloc)
}

/// A cite in no range.
fn unranged() -> CollapsedCite
    ensures { result ≡ unranged }
{
    CollapsedCite {
        is_inner: false,
        is_cut: false,
        delimiter: Delimiter::Usual,
    }
}

fn unranged_cites<L>(
    alloc: Global,
    cites: &[PositionedCite<L>],
) -> Result<Vec<CollapsedCite>, AllocError>
    ensures { IfOk result (λ v. v.items ≡ map (λ c. unranged) cites.now) }
{
    cites.iter().map(|_cite| unranged()).collect(alloc)
}

fn ranges_of_numbers<L>(
    alloc: Global,
    numbers: &[usize],
    cites: &[PositionedCite<L>],
) -> Result<Vec<CollapsedCite>, AllocError>
    ensures { IfOk result
        (λ v. v.items ≡ number_ranges (map (numbered_cite numbers.now) cites.now)) }
{
    let numbered = numbered_cites(alloc, numbers, cites)?;
    number_ranges(alloc, &numbered)
}

fn stretches_of_suffixes<L>(
    alloc: Global,
    ranges: bool,
    cites: &[PositionedCite<L>],
) -> Result<Vec<CollapsedCite>, AllocError>
    ensures { IfOk result (λ v. v.items ≡ suffix_stretches ranges (map suffixed_cite cites.now)) }
{
    let suffixed = suffixed_cites(alloc, cites)?;
    suffix_stretches(alloc, ranges, &suffixed)
}

/// What ranges of numbers (`mentions_ranges::numbers::number_ranges`) or stretches of suffixes
/// (`mentions_ranges::suffixes::suffix_stretches`) say of the cites of a request, where these collapse.
pub(crate) fn cite_ranges<L>(
    alloc: Global,
    collapse: Option<Collapse>,
    numbers: &[usize],
    cites: &[PositionedCite<L>],
) -> Result<Vec<CollapsedCite>, AllocError>
    ensures { IfOk result (λ v. v.items ≡ cite_ranges collapse numbers.now cites.now) }
{
    match collapse {
        Some(Collapse::CitationNumber) => ranges_of_numbers(alloc, numbers, cites),
        Some(Collapse::YearSuffix) => stretches_of_suffixes(alloc, false, cites),
        Some(Collapse::YearSuffixRanged) => stretches_of_suffixes(alloc, true, cites),
        Some(Collapse::Year) => unranged_cites(alloc, cites),
        None => unranged_cites(alloc, cites),
    }
}

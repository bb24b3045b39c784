//! Years that show their suffixes only (CSL 1.0.2, cite collapsing: year-suffix and
//! year-suffix-ranged).
ghost use Rattle.std.specs.Prelude.{◌≡◌, ◌<◌, IfOk, length, nat_eq};
ghost use Rattle.std.specs.Option.{option_eq};
ghost use Rattle.mentions_ranges.specs.Links.{suffix_made};
ghost use Rattle.mentions_ranges.specs.Stretches.{linked_at};
ghost use Rattle.mentions_ranges.specs.SuffixStretches.{are_next, are_of_one_class, fits, is_alike, joins, suffix_stretches, suffixes_rise};

use crate::around::{Around, ends_long, moved, unlinked};
use crate::collapsed::{CollapsedCite, Delimiter};
use driver_lookup::apart::Apart;
use std::alloc::{AllocError, Global};

/// The suffix of an entry's year.
#[derive(Clone, Copy)]
pub struct Suffix {
    /// The class of the entries among which it was given.
    pub class: usize,
    /// Its number.
    pub number: usize,
}

/// A cite of a request whose years collapse.
#[derive(Clone, Copy)]
pub struct SuffixedCite {
    /// The index of its entry.
    pub entry: usize,
    /// The suffix of its entry, if it has one.
    pub suffix: Option<Suffix>,
    /// What it reads as: a number that is the same for equal texts; none where it has no text.
    pub text: Option<usize>,
    /// Its names as they are shown: a number that is the same for equal ones; none where it has
    /// none.
    pub names: Option<usize>,
    /// Whether it shows a date.
    pub has_date: bool,
    /// Whether its caller hides it.
    pub hidden: bool,
    pub has_locator: bool,
    pub apart: Option<Apart>,
}

/// What collapsing makes of the cites of a request, in their final order. Cites next to each
/// other that are of one class of suffixes, and read alike but for these, show their suffixes
/// alone, but for the first of them; where ranges are asked for, of those whose suffixes rise by
/// one, three or more, only the ends are shown, and a dash stands between.
///
/// # Errors
///
/// Where memory is refused.
pub fn suffix_stretches(
    alloc: Global,
    ranges: bool,
    cites: &[SuffixedCite],
) -> Result<Vec<CollapsedCite>, AllocError>
    ensures { IfOk result (λ v. v.items ≡ suffix_stretches ranges cites.now) }
{
    let mut is_later = false;
    let mut around = unlinked();
    let mut collapsed = Vec::with_capacity(alloc, cites.len())?;
    for k in 0..cites.len() {
        around = moved(around, rises_behind(cites, k));
        collapsed.push(collapsed_cite(ranges, is_later, around))?;
        is_later = joins_behind(cites, k);
    }
    Ok(collapsed)
}

/// Whether the cite at k and the one behind it are of one stretch.
fn joins_behind(cites: &[SuffixedCite], k: usize) -> bool
    requires { k < length cites.now }
    ensures { result ≡ linked_at joins cites.now k }
{
    let next = k + 1;
    if next < cites.len() {
        joins(&cites[k], &cites[next])
    } else {
        false
    }
}

/// Whether they are, and the suffix of the one behind is the next one.
fn rises_behind(cites: &[SuffixedCite], k: usize) -> bool
    requires { k < length cites.now }
    ensures { result ≡ linked_at suffixes_rise cites.now k }
{
    let next = k + 1;
    if next < cites.len() {
        suffixes_rise(&cites[k], &cites[next])
    } else {
        false
    }
}

fn suffixes_rise(cite: &SuffixedCite, next: &SuffixedCite) -> bool
    ensures { result ≡ suffixes_rise cite.now next.now }
{
    joins(cite, next) && are_next(&cite.suffix, &next.suffix)
}

/// Whether both suffixes are there, and the second is the next one.
fn are_next(suffix: &Option<Suffix>, next: &Option<Suffix>) -> bool
    ensures { result ≡ are_next suffix.now next.now }
{
    match (suffix, next) {
        (Some(suffix), Some(next)) => {
            suffix.number < next.number && next.number - suffix.number == 1
        }
        _ => false,
    }
}

/// Whether two cites next to each other are of one stretch.
fn joins(cite: &SuffixedCite, next: &SuffixedCite) -> bool
    ensures { result ≡ joins cite.now next.now }
{
    fits(cite) && fits(next) && next.apart.is_none() && is_alike(cite, next)
}

/// Whether a cite may be in a stretch.
fn fits(cite: &SuffixedCite) -> bool
    ensures { result ≡ fits cite.now }
{
    cite.has_date
        && !cite.hidden
        && !cite.has_locator
        && cite.text.is_some()
        && cite.suffix.is_some()
        && !matches!(cite.apart, Some(Apart::Both))
}

/// Whether two cites of different entries have suffixes of one class, and read alike but for these.
fn is_alike(cite: &SuffixedCite, next: &SuffixedCite) -> bool
    ensures { result ≡ is_alike cite.now next.now }
{
    cite.entry != next.entry
        && are_of_one_class(&cite.suffix, &next.suffix)
        && same_number(cite.text, next.text)
        && same_number(cite.names, next.names)
}

/// Whether both suffixes are there, and of one class.
fn are_of_one_class(suffix: &Option<Suffix>, next: &Option<Suffix>) -> bool
    ensures { result ≡ are_of_one_class suffix.now next.now }
{
    match (suffix, next) {
        (Some(suffix), Some(next)) => suffix.class == next.class,
        _ => false,
    }
}

/// Whether both are there and equal, or neither is there.
fn same_number(number: Option<usize>, other: Option<usize>) -> bool
    ensures { result ≡ option_eq nat_eq number other }
{
    match (number, other) {
        (Some(number), Some(other)) => number == other,
        (None, None) => true,
        _ => false,
    }
}

/// A cite, by whether it stands in a stretch behind its first one, and by where suffixes rise
/// around it.
fn collapsed_cite(ranges: bool, is_later: bool, around: Around) -> CollapsedCite
    ensures { result ≡ suffix_made ranges is_later around }
{
    CollapsedCite {
        is_inner: ranges && around.here && around.behind,
        is_cut: is_later,
        delimiter: if ranges && ends_long(around) {
            Delimiter::Dash
        } else if is_later {
            Delimiter::YearSuffix
        } else {
            Delimiter::Usual
        },
    }
}

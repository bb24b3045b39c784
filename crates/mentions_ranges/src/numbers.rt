//! Ranges of citation numbers (CSL 1.0.2, cite collapsing: citation-number).
ghost use Rattle.std.specs.Prelude.{◌≡◌, ◌<◌, ◌&&◌, ◌||◌, IfOk, length};
ghost use Rattle.mentions_ranges.specs.Links.{ends_long, number_made};
ghost use Rattle.mentions_ranges.specs.NumberRanges.{is_next, number_ranges, rises};
ghost use Rattle.mentions_ranges.specs.Stretches.{linked_at};

use crate::around::{Around, ends_long, moved, unlinked};
use crate::collapsed::{CollapsedCite, Delimiter};
use std::alloc::{AllocError, Global};

/// A cite of a request whose numbers collapse.
#[derive(Clone, Copy)]
pub struct NumberedCite {
    /// Whether its caller hides it.
    pub hidden: bool,
    /// The citation number that it shows; none where it shows none, or may be in no range: where
    /// it is hidden, has a locator, or has words of its caller's around it.
    pub number: Option<usize>,
}

/// What collapsing makes of the cites of a request, in their final order. Of a range of cites
/// whose numbers rise by one, as long as can be, the inner ones aren't shown, and if there are
/// any a dash stands before the last one. The next cite behind such a range that its caller
/// doesn't hide has the after-collapse delimiter before it.
///
/// # Errors
///
/// Where memory is refused.
pub fn number_ranges(
    alloc: Global,
    cites: &[NumberedCite],
) -> Result<Vec<CollapsedCite>, AllocError>
    ensures { IfOk result (λ v. v.items ≡ number_ranges cites.now) }
{
    let mut around = unlinked();
    // Whether a range with inner cites ended, and no cite was shown since.
    let mut follows = false;
    let mut collapsed = Vec::with_capacity(alloc, cites.len())?;
    for (k, cite) in cites.iter().enumerate() {
        around = moved(around, rises_behind(cites, k));
        collapsed.push(collapsed_cite(around, follows, cite.hidden))?;
        follows = follows_behind(around, follows, cite.hidden);
    }
    Ok(collapsed)
}

/// Whether the cite at k shows a number, and the one behind it shows one more.
fn rises_behind(cites: &[NumberedCite], k: usize) -> bool
    requires { k < length cites.now }
    ensures { result ≡ linked_at rises cites.now k }
{
    let next = k + 1;
    if next < cites.len() {
        is_next(cites[k].number, cites[next].number)
    } else {
        false
    }
}

/// Whether both numbers are there, and the second is one more.
fn is_next(number: Option<usize>, next: Option<usize>) -> bool
    ensures { result ≡ is_next number next }
{
    match (number, next) {
        (Some(number), Some(next)) => number < next && next - number == 1,
        _ => false,
    }
}

/// Whether the next cite is behind a range: one ends here, or this cite is hidden and behind one.
fn follows_behind(around: Around, follows: bool, hidden: bool) -> bool
    ensures { result ≡ (ends_long around || (follows && hidden)) }
{
    ends_long(around) || follows && hidden
}

/// A cite, by where numbers rise around it, and whether it is behind a range.
fn collapsed_cite(around: Around, follows: bool, hidden: bool) -> CollapsedCite
    ensures { result ≡ number_made around follows hidden }
{
    CollapsedCite {
        is_inner: around.here && around.behind,
        is_cut: false,
        delimiter: if ends_long(around) {
            Delimiter::Dash
        } else if follows && !hidden {
            Delimiter::AfterCollapse
        } else {
            Delimiter::Usual
        },
    }
}

//! Runs of citation numbers.
ghost use Rattle.std.specs.Prelude.{◌≡◌, ◌<◌, length, map, option_map};
ghost use Rattle.driver_passes.specs.RendersView.{item_view, items_view};
ghost use Rattle.rounds_grouping.specs.NumberRuns.{number_at, number_collapsed, shown_number};
ghost use Rattle.rounds_grouping.specs.CollapseSteps.{is_next, next_rises, number_step};
ghost use Rattle.driver_passes.specs.ByPlaces.{by_places};

use csl_base::elem::ElemMeta;
use driver_passes::renders::SpeculativeItemRender;

/// Whether numbers rise by one from each cite to the next, around cite k.
#[derive(Clone, Copy)]
struct Rises {
    /// From cite k - 3 to cite k - 2.
    earlier: bool,
    /// From cite k - 2 to cite k - 1.
    before: bool,
    /// From cite k - 1 to cite k.
    here: bool,
    /// From cite k to cite k + 1.
    behind: bool,
}

impl Rises {
    /// The same around the cite at k, from that around the cite before.
    fn next<T, P>(self, items: &[SpeculativeItemRender<'_, T, P>], k: usize) -> Rises
        requires { k < length items.now }
        ensures { result ≡ next_rises (map shown_number (items_view items.now)) k self }
    {
        let behind = is_next(number_at(items, k), number_at(items, k + 1));
        Rises {
            earlier: self.before,
            before: self.here,
            here: self.behind,
            behind,
        }
    }
}

/// Collapses runs of numbers; `after` stands before a run that follows one with hidden cites.
pub(crate) fn collapse_numbers<'a, T, P>(
    items: &mut [SpeculativeItemRender<'a, T, P>],
    after: Option<&'a str>,
)
    ensures { items_view items.new
        ≡ by_places (number_collapsed (option_map (λ s. s.now) after.entry) (items_view items.old))
        (items_view items.old) }
{
    let mut rises = Rises {
        earlier: false,
        before: false,
        here: false,
        behind: false,
    };
    for k in 0..items.len() {
        rises = rises.next(items, k);
        collapse_number(&mut items[k], rises, after);
    }
}

/// Hides a cite inside a run, or gives it what stands before the last of a run or before one
/// behind.
#[tactic(auto, using(crate::proofs::RunLemmas::en_dash_bytes))]
fn collapse_number<'a, T, P>(
    cite: &mut SpeculativeItemRender<'a, T, P>,
    rises: Rises,
    after: Option<&'a str>,
)
    ensures { item_view cite.new
        ≡ number_step rises (option_map (λ s. s.now) after.entry) (item_view cite.old) }
{
    let has_number = shown_number(cite).is_some();
    if rises.here && rises.behind {
        cite.hidden = true;
    }
    if rises.before && rises.here && !rises.behind {
        cite.delim_override = Some("–");
    } else if rises.earlier && rises.before && !rises.here && has_number {
        cite.delim_override = after;
    }
}

/// The number of a cite that isn't hidden and shows one.
fn shown_number<T, P>(cite: &SpeculativeItemRender<'_, T, P>) -> Option<usize>
    ensures { result ≡ shown_number (item_view cite.now) }
{
    let tree = &cite.rendered;
    if !cite.hidden && tree.find_meta(&ElemMeta::CitationNumber).is_some() {
        Some(cite.cite_props.speculative.citation_number)
    } else {
        None
    }
}

/// The number that the cite at a place shows, if there is a cite.
fn number_at<T, P>(items: &[SpeculativeItemRender<'_, T, P>], k: usize) -> Option<usize>
    ensures { result ≡ number_at (map shown_number (items_view items.now)) k }
{
    let cite = items.get(k)?;
    shown_number(cite)
}

/// Whether both numbers are there, and the second is one more.
fn is_next(before: Option<usize>, here: Option<usize>) -> bool
    ensures { result ≡ is_next before here }
{
    match (before, here) {
        (Some(before), Some(here)) => before < here && here - before == 1,
        _ => false,
    }
}

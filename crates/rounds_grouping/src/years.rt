//! Years of cites of one group.
ghost use Rattle.std.specs.Prelude.{◌≡◌};
ghost use Rattle.value_styles.specs.StyleView.{citation_view};
ghost use Rattle.driver_passes.specs.RendersView.{item_view, items_view};
ghost use Rattle.rounds_grouping.specs.CollapseSteps.{is_same, year_step};
ghost use Rattle.rounds_grouping.specs.YearStretches.{has_later_suffix, year_collapsed};
ghost use Rattle.driver_passes.specs.ByPlaces.{by_places};

use crate::collapse::after_collapse;
use csl_base::style::Citation;
use driver_lookup::state::CollapseVerdict;
use driver_passes::renders::SpeculativeItemRender;

/// Draws the years of each group together, down to their suffixes if asked for.
pub(crate) fn collapse_years<'a, T, P>(
    items: &mut [SpeculativeItemRender<'a, T, P>],
    citation: &'a Citation,
    to_suffixes: bool,
)
    ensures { items_view items.new
        ≡ by_places (year_collapsed (citation_view citation.now) to_suffixes (items_view items.old))
        (items_view items.old) }
{
    let mut before = None;
    // Whether the cite before is of the same group as the one before that.
    let mut was_later = false;
    for k in 0..items.len() {
        let here = items[k].group_idx;
        let is_later = is_same(before, here);
        collapse_year(&mut items[k], citation, to_suffixes, is_later, was_later);
        before = here;
        was_later = is_later;
    }
}

/// Cuts a cite behind another of its group, or gives the delimiter to one behind several of
/// another.
fn collapse_year<'a, T, P>(
    cite: &mut SpeculativeItemRender<'a, T, P>,
    citation: &'a Citation,
    to_suffixes: bool,
    is_later: bool,
    was_later: bool,
)
    ensures { item_view cite.new
        ≡ year_step (citation_view citation.now) to_suffixes is_later was_later
        (item_view cite.old) }
{
    if !is_later {
        if was_later {
            cite.delim_override = after_collapse(citation);
        }
        return;
    }
    let group = citation.cite_group_delimiter.as_deref();
    if to_suffixes && has_later_suffix(cite) {
        cite.delim_override = citation.year_suffix_delimiter.as_deref().or(group);
        cite.collapse_verdict = Some(CollapseVerdict::YearSuffix);
    } else {
        cite.delim_override = group;
        cite.collapse_verdict = Some(CollapseVerdict::First);
    }
}

/// Whether the cite's entry is disambiguated by a suffix of the year, other than the first.
fn has_later_suffix<T, P>(cite: &SpeculativeItemRender<'_, T, P>) -> bool
    ensures { result ≡ has_later_suffix (item_view cite.now) }
{
    match cite.cite_props.speculative.disambiguation.year_suffix() {
        Some(suffix) => suffix > 0,
        None => false,
    }
}

/// Whether both groups are there and equal.
fn is_same(before: Option<usize>, here: Option<usize>) -> bool
    ensures { result ≡ is_same before here }
{
    match (before, here) {
        (Some(before), Some(here)) => here == before,
        _ => false,
    }
}

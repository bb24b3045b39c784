//! Grouping (CSL 1.0.2, cite grouping).
ghost use Rattle.std.specs.Prelude.{
  ◌≡◌,
  ◌≤◌,
  None,
  Some,
  if◌then◌else◌,
  length,
  map,
  option_map,
  IfOk,
  OnErr,
  OnOk,
};
ghost use Rattle.value_styles.specs.StyleView.{citation_view};
ghost use Rattle.driver_passes.specs.RendersView.{item_view, items_view, render_view};
ghost use Rattle.rounds_grouping.specs.Blocks.{group_delimiter, grouped, grouped_cites, is_grouped};
ghost use Rattle.rounds_grouping.specs.FinalOrder.{HasFinalOrder};
ghost use Rattle.rounds_grouping.specs.Steps.{all_marked, marked_in_block};

use crate::blocks::{Placed, block_order};
use crate::moving::{places_below, rearrange};
use csl_base::style::Citation;
use driver_passes::renders::{SpeculativeCiteRender, SpeculativeItemRender};
use std::alloc::{AllocError, Global};

/// Brings the cites of a request together whose first names elements are equal, where its style has
/// a cite group delimiter, or a collapse and a layout delimiter; else nothing changes (CSL 1.0.2,
/// `cite-group-delimiter`).
///
/// Such cites form a block in their order, which stands where its first cite stood. A cite without
/// names is a block of its own and has no index; the other blocks are counted from 0. The group
/// delimiter, else the layout's, becomes the override of each cite right behind another of its
/// block; the others have none. All else moves with its cite.
///
/// # Errors
/// Where memory is refused. Then the request is as it was.
pub fn group_cites<T, P>(
    alloc: Global,
    render: &mut SpeculativeCiteRender<'_, '_, T, P>,
) -> Result<(), AllocError>
    ensures grouped { OnOk result (render_view render.new ≡ grouped (render_view render.old)) }
    ensures refused { OnErr result (render_view render.new ≡ render_view render.old) }
    ensures laws { OnOk result
        (HasFinalOrder (is_grouped (render_view render.old).request.style.citation)
        (render_view render.old).items (render_view render.new).items) }
{
    let citation = &render.request.style().citation;
    match delimiter_of_groups(citation) {
        Some(delimiter) => bring_together(alloc, &mut render.items, delimiter),
        None => Ok(()),
    }
}

/// What stands between the cites of a block, where a style groups cites.
fn delimiter_of_groups(citation: &Citation) -> Option<&str>
    ensures { option_map (λ s. s.now) result
        ≡ (if is_grouped (citation_view citation.now)
        then group_delimiter (citation_view citation.now)
        else None) }
{
    match citation.cite_group_delimiter.as_deref() {
        Some(delimiter) => Some(delimiter),
        None => {
            if citation.collapse.is_some() {
                citation.layout.delimiter.as_deref()
            } else {
                None
            }
        }
    }
}

/// Brings the cites of each block together.
fn bring_together<'a, T, P>(
    alloc: Global,
    items: &mut [SpeculativeItemRender<'a, T, P>],
    delimiter: &'a str,
) -> Result<(), AllocError>
    ensures grouped { OnOk result (items_view items.new
        ≡ grouped_cites (Some delimiter.now) (items_view items.old)) }
    ensures refused { OnErr result (items.new ≡ items.old) }
{
    let placed = block_order(alloc, items)?;
    let order = places_of(alloc, &placed)?;
    let mut standing = places_below(alloc, items.len())?;
    let mut found_at = places_below(alloc, items.len())?;
    rearrange(items, &order, &mut standing, &mut found_at);
    mark(items, &placed, delimiter);
    Ok(())
}

/// The places at which the cites stand, in the order in which they go.
fn places_of(alloc: Global, placed: &[Placed]) -> Result<Vec<usize>, AllocError>
    ensures { IfOk result (λ v. v.items ≡ map (λ o. o.place) placed.now) }
{
    placed.iter().map(|o| o.place).collect(alloc)
}

/// Marks the cites, which stand in this order, as those of their blocks.
fn mark<'a, T, P>(
    items: &mut [SpeculativeItemRender<'a, T, P>],
    placed: &[Placed],
    delimiter: &'a str,
)
    requires { length placed.now ≤ length items.old }
    ensures { items_view items.new
        ≡ all_marked (Some delimiter.now) placed.now (items_view items.old) }
{
    for i in 0..placed.len() {
        mark_cite(&mut items[i], placed[i], delimiter);
    }
}

/// Gives a cite the index of its block, and the delimiter where it comes behind another of it.
fn mark_cite<'a, T, P>(
    cite: &mut SpeculativeItemRender<'a, T, P>,
    placed: Placed,
    delimiter: &'a str,
)
    ensures { item_view cite.new
        ≡ marked_in_block (Some delimiter.now) placed (item_view cite.old) }
{
    cite.delim_override = if placed.follows {
        Some(delimiter)
    } else {
        None
    };
    cite.group_idx = placed.group;
}

//! The citation of a request, from its cites as they stand in the end.
ghost use Rattle.std.specs.Prelude.{◌≡◌, ◌∷◌, [], IfOk, OnOk, map, option_map};
ghost use Rattle.value_styles.specs.StyleView.{layout_view};
ghost use Rattle.driver_passes.specs.Request.{source_of};
ghost use Rattle.driver_passes.specs.RequestView.{request_view};
ghost use Rattle.driver_passes.specs.Renders.{CiteRender};
ghost use Rattle.driver_passes.specs.RendersView.{item_view, items_view};
ghost use Rattle.driver_assembly.specs.CitationTree.{
  citation_tasks,
  citation_tree,
  delimiter_before,
  marked_cite,
  last_place_of,
  shown,
  shown_cite,
};
ghost use Rattle.driver_assembly.specs.LastTree.{last_task, task_by_purpose, tree_by_purpose};
ghost use Rattle.driver_assembly.specs.ShownView.{shown_views};
ghost use Rattle.driver_passes.specs.Purposes.{has_no_purpose};
ghost use Rattle.driver_writers.specs.Desk.{after, desk};
ghost use Rattle.driver_writers.specs.Writing.{writing_of};

use crate::assemble::{ShownCite, assembled};
use crate::last_tree::last_tree;
use csl_base::elem::{Elem, ElemChild, ElemChildren, ElemMeta};
use csl_base::entry::EntryLike;
use csl_base::style::Layout;
use driver_passes::acyclic::AcyclicRequest;
use driver_passes::purposes::has_no_purpose;
use driver_passes::renders::SpeculativeItemRender;
use driver_writers::counter::Renders;
use driver_writers::pushed::push;
use driver_writers::writer::CiteWriter;
use std::alloc::Global;

/// What stands before a cite that isn't the first that shows: its override, else the layout's
/// delimiter.
fn delimiter_before<'a, T, P>(
    layout: &'a Layout,
    item: &SpeculativeItemRender<'a, T, P>,
) -> Option<&'a str>
    ensures { option_map (λ d. d.now) result
        ≡ delimiter_before (layout_view layout.now) (item_view item.now) }
{
    item.delim_override.or(layout.delimiter.as_deref())
}

/// The tree of a cite of the request of this index, marked with its place in its request.
fn marked_cite<T: EntryLike, P: Drop, W: CiteWriter<T, P>>(
    alloc: Global,
    request: AcyclicRequest<'_, '_, T, P>,
    index: usize,
    item: &SpeculativeItemRender<'_, T, P>,
    writer: &mut W,
    counter: &mut Renders,
) -> Result<ElemChildren, W::Error>
    ensures tree { let task = last_task (source_of (request_view request.entry.request.now))
        (last_place_of index (item_view item.now)) (item_view item.now) in
        IfOk result (λ tree. (way : W.Way) → W.agrees writer.new way
        → tree ≡ marked_cite (item_view item.now)
        (tree_by_purpose (writing_of T.answers (W.state writer.old way)) task)) }
    ensures asked { let task = last_task (source_of (request_view request.entry.request.now))
        (last_place_of index (item_view item.now)) (item_view item.now) in
        OnOk result ((way : W.Way) → W.agrees writer.new way
        → desk (W.state writer.new way) counter.new
        ≡ after (task_by_purpose task ∷ []) (desk (W.state writer.old way) counter.old)) }
    ensures agreed { OnOk result ((way : W.Way) → W.agrees writer.new way
        → W.agrees writer.old way) }
{
    let own = item.cite_props.certain.initial_idx;
    let cite = Elem {
        children: last_tree(alloc, request, (index, own), item, writer, counter)?,
        display: None,
        meta: Some(ElemMeta::Entry(own)),
    };
    let mut tree = ElemChildren::new(alloc);
    tree.push(ElemChild::Elem(cite))?;
    Ok(tree)
}

/// The shown cites, each with its tree and its delimiter. The others are written too.
pub(crate) fn shown_cites<'a, T: EntryLike, P: Drop, W: CiteWriter<T, P>>(
    alloc: Global,
    request: AcyclicRequest<'_, 'a, T, P>,
    index: usize,
    items: &[SpeculativeItemRender<'a, T, P>],
    writer: &mut W,
    counter: &mut Renders,
) -> Result<Vec<ShownCite<'a>>, W::Error>
    ensures cites { let request = request_view request.entry.request.now in
        IfOk result (λ cites. (way : W.Way) → W.agrees writer.new way
        → shown_views cites.items
        ≡ map (shown_cite (writing_of T.answers (W.state writer.old way)) index (source_of request)
        request.style.citation.layout) (shown (items_view items.now))) }
    ensures asked { let cites : CiteRender T P = record {
      items = items_view items.now;
      request = request_view request.entry.request.now;
    } in
        OnOk result ((way : W.Way) → W.agrees writer.new way
        → desk (W.state writer.new way) counter.new
        ≡ after (citation_tasks index cites) (desk (W.state writer.old way) counter.old)) }
    ensures agreed { OnOk result ((way : W.Way) → W.agrees writer.new way
        → W.agrees writer.old way) }
{
    let layout = &request.request.style().citation.layout;
    let mut cites = Vec::with_capacity(alloc, items.len())?;
    for item in items {
        let tree = marked_cite(alloc, request, index, item, writer, counter)?;
        if !item.hidden {
            let delimiter = delimiter_before(layout, item);
            push(&mut cites, ShownCite { delimiter, tree })?;
        }
    }
    Ok(cites)
}

/// The citation of the request of this index: its shown cites, each written for its purpose and as
/// its verdict cuts it, by all that holds of it in the end, behind its override or else the
/// layout's delimiter; between the layout's prefix and suffix where no cite has a purpose. Each is
/// an element with meta `Entry(i)`, where i is its place in the items of the request. Hidden cites
/// are written too; each rendering is counted.
///
/// # Errors
/// The writer's; lack of memory among others.
pub fn citation_tree<'a, T: EntryLike, P: Drop, W: CiteWriter<T, P>>(
    alloc: Global,
    request: AcyclicRequest<'_, 'a, T, P>,
    index: usize,
    items: &[SpeculativeItemRender<'a, T, P>],
    writer: &mut W,
    counter: &mut Renders,
) -> Result<ElemChildren, W::Error>
    ensures tree { let cites : CiteRender T P = record {
      items = items_view items.now;
      request = request_view request.entry.request.now;
    } in
        IfOk result (λ tree. (way : W.Way) → W.agrees writer.new way
        → tree
        ≡ citation_tree (writing_of T.answers (W.state writer.old way)) index cites) }
    ensures asked { let cites : CiteRender T P = record {
      items = items_view items.now;
      request = request_view request.entry.request.now;
    } in
        OnOk result ((way : W.Way) → W.agrees writer.new way
        → desk (W.state writer.new way) counter.new
        ≡ after (citation_tasks index cites) (desk (W.state writer.old way) counter.old)) }
    ensures agreed { OnOk result ((way : W.Way) → W.agrees writer.new way
        → W.agrees writer.old way) }
{
    let cites = shown_cites(alloc, request, index, items, writer, counter)?;
    let layout = &request.request.style().citation.layout;
    Ok(assembled(alloc, layout, cites, has_no_purpose(items))?)
}

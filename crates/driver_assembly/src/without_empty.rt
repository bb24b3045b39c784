//! The citation of a request, where cites without content aren't shown.
ghost use Rattle.std.specs.Prelude.{◌≡◌, IfOk, OnOk, filter};
ghost use Rattle.driver_passes.specs.Renders.{CiteRender};
ghost use Rattle.driver_passes.specs.RendersView.{items_view};
ghost use Rattle.driver_passes.specs.RequestView.{request_view};
ghost use Rattle.driver_assembly.specs.CitationTree.{citation_tasks};
ghost use Rattle.driver_assembly.specs.ShownView.{shown_view, shown_views};
ghost use Rattle.driver_assembly.specs.WithoutEmpty.{citation_without_empty, has_something};
ghost use Rattle.driver_writers.specs.Desk.{after, desk};
ghost use Rattle.driver_writers.specs.Writing.{writing_of};

use crate::assemble::{ShownCite, assembled};
use crate::citation::shown_cites;
use csl_base::elem::ElemChildren;
use csl_base::entry::EntryLike;
use driver_passes::acyclic::AcyclicRequest;
use driver_passes::purposes::has_no_purpose;
use driver_passes::renders::SpeculativeItemRender;
use driver_writers::counter::Renders;
use driver_writers::writer::CiteWriter;
use std::alloc::Global;

/// Whether there is something to see of a cite.
fn has_something(cite: &ShownCite<'_>) -> bool
    ensures { result ≡ has_something (shown_view cite.now) }
{
    cite.tree.has_content()
}

/// Takes out the cites that show nothing.
fn remove_empty(cites: &mut Vec<ShownCite<'_>>)
    ensures { shown_views cites.new.items ≡ filter has_something (shown_views cites.old.items) }
{
    cites.retain(|cite| has_something(cite));
}

/// The citation of the request of this index, as `citation_tree` gives it, but for cites whose
/// trees have no content: these aren't shown, and no delimiter stands for them. Where no cite is
/// shown there is neither a prefix nor a suffix. They are written too; each rendering is counted.
///
/// # Errors
/// The writer's; lack of memory among others.
pub fn citation_without_empty<'a, T: EntryLike, P: Drop, W: CiteWriter<T, P>>(
    alloc: Global,
    request: AcyclicRequest<'_, 'a, T, P>,
    index: usize,
    items: &[SpeculativeItemRender<'a, T, P>],
    writer: &mut W,
    counter: &mut Renders,
) -> Result<ElemChildren, W::Error>
    ensures tree { let cites : CiteRender T P = record {
      items = items_view items.now;
      request = request_view request.entry.request.now;
    } in
        IfOk result (λ tree. (way : W.Way) → W.agrees writer.new way
        → tree
        ≡ citation_without_empty (writing_of T.answers (W.state writer.old way)) index cites) }
    ensures asked { let cites : CiteRender T P = record {
      items = items_view items.now;
      request = request_view request.entry.request.now;
    } in
        OnOk result ((way : W.Way) → W.agrees writer.new way
        → desk (W.state writer.new way) counter.new
        ≡ after (citation_tasks index cites) (desk (W.state writer.old way) counter.old)) }
    ensures agreed { OnOk result ((way : W.Way) → W.agrees writer.new way
        → W.agrees writer.old way) }
{
    let mut cites = shown_cites(alloc, request, index, items, writer, counter)?;
    remove_empty(&mut cites);
    let layout = &request.request.style().citation.layout;
    Ok(assembled(alloc, layout, cites, has_no_purpose(items))?)
}

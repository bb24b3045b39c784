//! The tree of a cite once nothing of it changes any more.
ghost use Rattle.std.specs.Prelude.{◌≡◌, ◌∷◌, [], IfOk, OnOk};
ghost use Rattle.driver_lookup.specs.PropertiesView.{properties_view};
ghost use Rattle.driver_passes.specs.RendersView.{item_view};
ghost use Rattle.driver_passes.specs.Request.{source_of};
ghost use Rattle.driver_passes.specs.RequestView.{request_view};
ghost use Rattle.driver_assembly.specs.LastTree.{
  last_properties,
  last_task,
  task_by_purpose,
  tree_by_purpose,
};
ghost use Rattle.driver_writers.specs.Desk.{after, desk};
ghost use Rattle.driver_writers.specs.TaskView.{cite_task_view};
ghost use Rattle.driver_writers.specs.Writing.{writing_of};

use csl_base::elem::ElemChildren;
use csl_base::entry::EntryLike;
use driver_lookup::properties::{CiteProperties, SpeculativeCiteProperties};
use driver_lookup::purpose::CitePurpose;
use driver_passes::acyclic::AcyclicRequest;
use driver_passes::renders::SpeculativeItemRender;
use driver_writers::asking::{written_cite, written_date};
use driver_writers::counter::Renders;
use driver_writers::task::{CiteTask, DateTask};
use driver_writers::writer::CiteWriter;
use std::alloc::{AllocError, Global};

/// The tree of a cite as the writer writes it for its purpose: the date, with the suffix that its
/// means have, where it is for the year alone.
///
/// # Errors
/// The writer's.
pub fn tree_by_purpose<T: EntryLike, P, W: CiteWriter<T, P>>(
    alloc: Global,
    task: CiteTask<'_, '_, T, P>,
    writer: &mut W,
    counter: &mut Renders,
) -> Result<ElemChildren, W::Error>
    ensures tree { IfOk result (λ tree. (way : W.Way) → W.agrees writer.new way
        → tree
        ≡ tree_by_purpose (writing_of T.answers (W.state writer.old way))
        (cite_task_view task.entry)) }
    ensures asked { OnOk result ((way : W.Way) → W.agrees writer.new way
        → desk (W.state writer.new way) counter.new
        ≡ after (task_by_purpose (cite_task_view task.entry) ∷ [])
        (desk (W.state writer.old way) counter.old)) }
    ensures agreed { OnOk result ((way : W.Way) → W.agrees writer.new way
        → W.agrees writer.old way) }
{
    match task.purpose {
        Some(CitePurpose::Year) => {
            let date = DateTask {
                source: task.source,
                entry: task.entry,
                suffix: task.properties.speculative.means.suffix,
                place: task.place,
            };
            written_date(alloc, date, writer, counter)
        }
        _ => {
            let cite = written_cite(alloc, task, writer, counter)?;
            Ok(cite.children)
        }
    }
}

/// The tree of a cite of the request at this place, for its purpose and as its verdict cuts it, by
/// its properties with its own locator.
///
/// # Errors
/// The writer's; lack of memory among others.
pub fn last_tree<T: EntryLike, P: Drop, W: CiteWriter<T, P>>(
    alloc: Global,
    request: AcyclicRequest<'_, '_, T, P>,
    place: (usize, usize),
    item: &SpeculativeItemRender<'_, T, P>,
    writer: &mut W,
    counter: &mut Renders,
) -> Result<ElemChildren, W::Error>
    ensures tree { IfOk result (λ tree. (way : W.Way) → W.agrees writer.new way
        → tree
        ≡ tree_by_purpose (writing_of T.answers (W.state writer.old way))
        (last_task (source_of (request_view request.entry.request.now)) (Some place)
        (item_view item.now))) }
    ensures asked { OnOk result ((way : W.Way) → W.agrees writer.new way
        → desk (W.state writer.new way) counter.new
        ≡ after (task_by_purpose
        (last_task (source_of (request_view request.entry.request.now)) (Some place)
        (item_view item.now)) ∷ []) (desk (W.state writer.old way) counter.old)) }
    ensures agreed { OnOk result ((way : W.Way) → W.agrees writer.new way
        → W.agrees writer.old way) }
{
    let properties = last_properties(item)?;
    tree_by_properties(alloc, request, place, item, &properties, writer, counter)
}

/// The tree of a cite of the request at this place, for its purpose and as its verdict cuts it, by
/// these properties.
fn tree_by_properties<T: EntryLike, P, W: CiteWriter<T, P>>(
    alloc: Global,
    request: AcyclicRequest<'_, '_, T, P>,
    place: (usize, usize),
    item: &SpeculativeItemRender<'_, T, P>,
    properties: &CiteProperties<'_, P>,
    writer: &mut W,
    counter: &mut Renders,
) -> Result<ElemChildren, W::Error>
    ensures tree { let task = record (last_task (source_of (request_view request.entry.request.now))
        (Some place) (item_view item.now)) { properties = properties_view properties.now } in
        IfOk result (λ tree. (way : W.Way) → W.agrees writer.new way
        → tree
        ≡ tree_by_purpose (writing_of T.answers (W.state writer.old way)) task) }
    ensures asked { let task =
        record (last_task (source_of (request_view request.entry.request.now))
        (Some place) (item_view item.now)) { properties = properties_view properties.now } in
        OnOk result ((way : W.Way) → W.agrees writer.new way
        → desk (W.state writer.new way) counter.new
        ≡ after (task_by_purpose task ∷ []) (desk (W.state writer.old way) counter.old)) }
    ensures agreed { OnOk result ((way : W.Way) → W.agrees writer.new way
        → W.agrees writer.old way) }
{
    let task = CiteTask {
        source: request.source(),
        entry: item.entry,
        properties,
        purpose: item.purpose,
        verdict: item.collapse_verdict,
        place: Some(place),
    };
    tree_by_purpose(alloc, task, writer, counter)
}

/// What a cite is written by at last: its properties, with its own locator.
fn last_properties<'a, T, P: Drop>(
    item: &SpeculativeItemRender<'a, T, P>,
) -> Result<CiteProperties<'a, P>, AllocError>
    ensures { IfOk result (λ p. properties_view p ≡ last_properties (item_view item.now)) }
{
    let speculative = &item.cite_props.speculative;
    Ok(CiteProperties {
        certain: item.cite_props.certain,
        speculative: SpeculativeCiteProperties {
            locator: item.locator.clone()?,
            citation_number: speculative.citation_number,
            ibid: speculative.ibid,
            disambiguation: speculative.disambiguation.clone()?,
            means: speculative.means.clone()?,
            identifier_usage: speculative.identifier_usage,
        },
    })
}

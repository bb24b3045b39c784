//! Cites rendered to be compared.
ghost use Rattle.std.specs.Prelude.{◌≡◌, ◌∷◌, [], IfOk, OnOk};
ghost use Rattle.driver_lookup.specs.PropertiesView.{properties_view};
ghost use Rattle.driver_passes.specs.RequestView.{request_view};
ghost use Rattle.rounds_rendering.specs.Gathered.{compared_task};
ghost use Rattle.driver_writers.specs.Desk.{after, desk};
ghost use Rattle.driver_writers.specs.Tasks.{cite_task};

use csl_base::entry::EntryLike;
use driver_lookup::properties::CiteProperties;
use driver_lookup::purpose::CitePurpose;
use driver_passes::acyclic::AcyclicRequest;
use driver_writers::asking::written_cite;
use driver_writers::cite::Cite;
use driver_writers::counter::Renders;
use driver_writers::task::CiteTask;
use driver_writers::writer::CiteWriter;
use std::alloc::Global;

/// A cite of an entry, rendered by these properties for a purpose. It has no verdict and no place.
pub(crate) fn compared_cite<T: EntryLike, P, W: CiteWriter<T, P>>(
    alloc: Global,
    request: AcyclicRequest<'_, '_, T, P>,
    entry: &T,
    properties: &CiteProperties<'_, P>,
    purpose: Option<CitePurpose>,
    writer: &mut W,
    counter: &mut Renders,
) -> Result<Cite, W::Error>
    ensures cite { IfOk result (λ c. (way : W.Way) → W.agrees writer.new way
        → c ≡ (W.state writer.old way).cite
        (compared_task (request_view request.entry.request.now) entry.now
        (properties_view properties.now) purpose)) }
    ensures asked { OnOk result ((way : W.Way) → W.agrees writer.new way
        → desk (W.state writer.new way) counter.new
        ≡ after (cite_task (compared_task (request_view request.entry.request.now) entry.now
        (properties_view properties.now) purpose) ∷ [])
        (desk (W.state writer.old way) counter.old)) }
    ensures agreed { OnOk result ((way : W.Way) → W.agrees writer.new way
        → W.agrees writer.old way) }
{
    let task = CiteTask {
        source: request.source(),
        entry,
        properties,
        purpose,
        verdict: None,
        place: None,
    };
    written_cite(alloc, task, writer, counter)
}

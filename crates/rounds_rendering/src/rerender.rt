//! Cites rendered again, where their entries are disambiguated by something new.
ghost use Rattle.std.specs.Prelude.{◌≡◌, ◌∷◌, [], OnOk, length, option_map};
ghost use Rattle.driver_entries.specs.TableView.{table_view};
ghost use Rattle.driver_passes.specs.ByPlaces.{by_places};
ghost use Rattle.driver_passes.specs.RequestView.{request_view};
ghost use Rattle.driver_passes.specs.RendersView.{item_view, items_view, renders_view};
ghost use Rattle.rounds_rendering.specs.CitesOfTable.{AreCitesOfTable};
ghost use Rattle.rounds_rendering.specs.Gathered.{
  cite_again,
  document_again,
  document_tasks,
  request_tasks,
  state_at,
};
ghost use Rattle.rounds_runs.specs.Rounds.{again_task, rendered_again, tasks_with, with_any};
ghost use Rattle.driver_writers.specs.Desk.{after, desk};
ghost use Rattle.driver_writers.specs.Tasks.{cite_task};
ghost use Rattle.driver_writers.specs.Writing.{writing_of};

use crate::compared::compared_cite;
use csl_base::entry::EntryLike;
use driver_entries::table::EntryTable;
use driver_lookup::state::DisambiguateState;
use driver_passes::acyclic::AcyclicRequest;
use driver_passes::renders::{SpeculativeCiteRender, SpeculativeItemRender};
use driver_writers::counter::Renders;
use driver_writers::writer::CiteWriter;
use std::alloc::Global;

/// Renders the cites again whose entries have states. These stand by the places of the entries in
/// the table.
pub(crate) fn render_marked<'a, T: EntryLike, P, W: CiteWriter<T, P>>(
    alloc: Global,
    cites: &mut [SpeculativeCiteRender<'_, 'a, T, P>],
    table: &EntryTable<'a, T>,
    states: &[Option<DisambiguateState>],
    writer: &mut W,
    counter: &mut Renders,
) -> Result<(), W::Error>
    requires cites { AreCitesOfTable T.eq (table_view table.now) (renders_view cites.old) }
    requires long { length states.now ≡ length (table_view table.now).entries }
    ensures again { OnOk result ((way : W.Way) → W.agrees writer.new way
        → renders_view cites.new
        ≡ document_again states.now (writing_of T.answers (W.state writer.old way))
        (table_view table.now).places
        (renders_view cites.old)) }
    ensures asked { OnOk result ((way : W.Way) → W.agrees writer.new way
        → desk (W.state writer.new way) counter.new
        ≡ after (document_tasks states.now (table_view table.now).places (renders_view cites.old))
        (desk (W.state writer.old way) counter.old)) }
    ensures agreed { OnOk result ((way : W.Way) → W.agrees writer.new way
        → W.agrees writer.old way) }
{
    let places = table.places();
    for r in 0..cites.len() {
        let request = AcyclicRequest {
            request: cites[r].request,
        };
        let items = &mut cites[r].items;
        render_items(alloc, request, states, &places[r], items, writer, counter)?;
    }
    Ok(())
}

/// The same for the cites of a request, whose entries have these places.
fn render_items<T: EntryLike, P, W: CiteWriter<T, P>>(
    alloc: Global,
    request: AcyclicRequest<'_, '_, T, P>,
    states: &[Option<DisambiguateState>],
    places: &[usize],
    items: &mut [SpeculativeItemRender<'_, T, P>],
    writer: &mut W,
    counter: &mut Renders,
) -> Result<(), W::Error>
    ensures again { OnOk result ((way : W.Way) → W.agrees writer.new way
        → items_view items.new
        ≡ by_places (cite_again states.now (writing_of T.answers (W.state writer.old way))
        (request_view request.entry.request.now) places.now) (items_view items.old)) }
    ensures asked { OnOk result ((way : W.Way) → W.agrees writer.new way
        → desk (W.state writer.new way) counter.new
        ≡ after (request_tasks states.now (request_view request.entry.request.now) places.now
        (items_view items.old)) (desk (W.state writer.old way) counter.old)) }
    ensures agreed { OnOk result ((way : W.Way) → W.agrees writer.new way
        → W.agrees writer.old way) }
{
    for k in 0..items.len() {
        let state = state_at(states, places, k);
        render_with(alloc, request, state, &mut items[k], writer, counter)?;
    }
    Ok(())
}

/// The state of the entry whose place stands at this index, if it has one.
fn state_at<'s>(
    states: &'s [Option<DisambiguateState>],
    places: &[usize],
    index: usize,
) -> Option<&'s DisambiguateState>
    ensures { option_map (λ s. s.now) result ≡ state_at states.now places.now index }
{
    let place = *places.get(index)?;
    states.get(place)?.as_ref()
}

/// Renders a cite again, if its entry has a state.
fn render_with<T: EntryLike, P, W: CiteWriter<T, P>>(
    alloc: Global,
    request: AcyclicRequest<'_, '_, T, P>,
    state: Option<&DisambiguateState>,
    item: &mut SpeculativeItemRender<'_, T, P>,
    writer: &mut W,
    counter: &mut Renders,
) -> Result<(), W::Error>
    ensures again { OnOk result ((way : W.Way) → W.agrees writer.new way
        → item_view item.new
        ≡ with_any (writing_of T.answers (W.state writer.old way))
        (request_view request.entry.request.now) (option_map (λ s. s.now) state.entry)
        (item_view item.old)) }
    ensures asked { OnOk result ((way : W.Way) → W.agrees writer.new way
        → desk (W.state writer.new way) counter.new
        ≡ after (tasks_with (request_view request.entry.request.now)
        (option_map (λ s. s.now) state.entry)
        (item_view item.old)) (desk (W.state writer.old way) counter.old)) }
    ensures agreed { OnOk result ((way : W.Way) → W.agrees writer.new way
        → W.agrees writer.old way) }
{
    match state {
        Some(state) => render_again(alloc, request, state.clone()?, item, writer, counter),
        None => Ok(()),
    }
}

/// Renders a cite again, with this state of its entry.
fn render_again<T: EntryLike, P, W: CiteWriter<T, P>>(
    alloc: Global,
    request: AcyclicRequest<'_, '_, T, P>,
    state: DisambiguateState,
    item: &mut SpeculativeItemRender<'_, T, P>,
    writer: &mut W,
    counter: &mut Renders,
) -> Result<(), W::Error>
    ensures again { OnOk result ((way : W.Way) → W.agrees writer.new way
        → item_view item.new
        ≡ rendered_again (writing_of T.answers (W.state writer.old way))
        (request_view request.entry.request.now) state
        (item_view item.old)) }
    ensures asked { OnOk result ((way : W.Way) → W.agrees writer.new way
        → desk (W.state writer.new way) counter.new
        ≡ after (cite_task (again_task (request_view request.entry.request.now) state
        (item_view item.old)) ∷ []) (desk (W.state writer.old way) counter.old)) }
    ensures agreed { OnOk result ((way : W.Way) → W.agrees writer.new way
        → W.agrees writer.old way) }
{
    item.cite_props.speculative.disambiguation = state;
    let cite = compared_cite(
        alloc,
        request,
        item.entry,
        &item.cite_props,
        item.purpose,
        writer,
        counter,
    )?;
    item.rendered = cite.children;
    Ok(())
}

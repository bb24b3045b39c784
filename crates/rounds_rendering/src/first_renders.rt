//! The first renders of cites.
ghost use Rattle.std.specs.Prelude.{◌≡◌, ◌∷◌, [], IfOk, OnOk, length, map};
ghost use Rattle.driver_lookup.specs.PropertiesView.{properties_view};
ghost use Rattle.driver_passes.specs.RendersView.{item_view, render_view, renders_view};
ghost use Rattle.driver_passes.specs.RequestView.{cite_view, request_view, requests_view};
ghost use Rattle.rounds_runs.specs.FirstRenders.{
  HasShapeOf,
  first_render,
  first_renders,
  first_renders_of,
  first_task,
  first_tasks,
  first_tasks_of,
  first_written_by,
  noted,
};
ghost use Rattle.driver_writers.specs.Desk.{after, desk};
ghost use Rattle.driver_writers.specs.Tasks.{cite_task};
ghost use Rattle.driver_writers.specs.Writing.{writing_of};

use crate::compared::compared_cite;
use csl_base::entry::EntryLike;
use driver_lookup::properties::{CiteProperties, SpeculativeCiteProperties};
use driver_lookup::state::IdentifierUsage;
use driver_passes::acyclic::{AcyclicRequest, AcyclicRequests};
use driver_passes::first::FirstProperties;
use driver_passes::item::CitationItem;
use driver_passes::renders::{Cites, SpeculativeCiteRender, SpeculativeItemRender};
use driver_writers::counter::Renders;
use driver_writers::pushed::push;
use driver_writers::writer::CiteWriter;
use std::alloc::Global;

/// Renders each cite of each request once, hidden ones too, for its purpose and by what is known of
/// it first: it has no locator, and nothing disambiguates its entry (CSL 1.0.2, disambiguation).
/// `firsts` has a list for each request, as long as the request's items. Each rendering is counted.
///
/// # Errors
/// The writer's; lack of memory among others.
pub fn first_renders<'r, 'a, T: EntryLike, P: Drop, W: CiteWriter<T, P>>(
    alloc: Global,
    requests: AcyclicRequests<'r, 'a, T, P>,
    firsts: &[Vec<FirstProperties>],
    writer: &mut W,
    counter: &mut Renders,
) -> Result<Cites<'r, 'a, T, P>, W::Error>
    requires shape { HasShapeOf (requests_view requests.requests.now)
        (map (λ f. f.items) firsts.now) }
    ensures cites { IfOk result (λ c. (way : W.Way) → W.agrees writer.new way
        → renders_view c.by_request.items
        ≡ first_renders (writing_of T.answers (W.state writer.old way))
        (requests_view requests.entry.requests.now)
        (map (λ f. f.items) firsts.now)) }
    ensures asked { OnOk result ((way : W.Way) → W.agrees writer.new way
        → desk (W.state writer.new way) counter.new
        ≡ after (first_tasks (requests_view requests.entry.requests.now)
        (map (λ f. f.items) firsts.now)) (desk (W.state writer.old way) counter.old)) }
    ensures agreed { OnOk result ((way : W.Way) → W.agrees writer.new way
        → W.agrees writer.old way) }
{
    let mut cites = Cites::with_capacity(alloc, firsts.len())?;
    for (k, of_request) in firsts.iter().enumerate() {
        let rendered = first_renders_of(alloc, requests.at(k), of_request, writer, counter)?;
        cites.push(rendered)?;
    }
    Ok(cites)
}

/// The cites of a request as they are rendered first.
fn first_renders_of<'r, 'a, T: EntryLike, P: Drop, W: CiteWriter<T, P>>(
    alloc: Global,
    request: AcyclicRequest<'r, 'a, T, P>,
    firsts: &[FirstProperties],
    writer: &mut W,
    counter: &mut Renders,
) -> Result<SpeculativeCiteRender<'r, 'a, T, P>, W::Error>
    requires shape { length firsts.now ≡ length (request_view request.request.now).cites }
    ensures cites { IfOk result (λ c. (way : W.Way) → W.agrees writer.new way
        → render_view c
        ≡ first_renders_of (writing_of T.answers (W.state writer.old way))
        (request_view request.entry.request.now)
        firsts.now) }
    ensures asked { OnOk result ((way : W.Way) → W.agrees writer.new way
        → desk (W.state writer.new way) counter.new
        ≡ after (first_tasks_of (request_view request.entry.request.now) firsts.now)
        (desk (W.state writer.old way) counter.old)) }
    ensures agreed { OnOk result ((way : W.Way) → W.agrees writer.new way
        → W.agrees writer.old way) }
{
    let mut cites = SpeculativeCiteRender {
        items: Vec::with_capacity(alloc, firsts.len())?,
        request: request.request,
    };
    for (k, item) in request.request.items.iter().enumerate() {
        let cite = first_render(alloc, request, item, firsts[k], writer, counter)?;
        push(&mut cites.items, cite)?;
    }
    Ok(cites)
}

/// A cite as it is rendered first.
fn first_render<'a, T: EntryLike, P: Drop, W: CiteWriter<T, P>>(
    alloc: Global,
    request: AcyclicRequest<'_, 'a, T, P>,
    item: &CitationItem<'a, T, P>,
    first: FirstProperties,
    writer: &mut W,
    counter: &mut Renders,
) -> Result<SpeculativeItemRender<'a, T, P>, W::Error>
    ensures cite { IfOk result (λ i. (way : W.Way) → W.agrees writer.new way
        → item_view i
        ≡ first_render (writing_of T.answers (W.state writer.old way))
        (request_view request.entry.request.now)
        (cite_view item.now) first) }
    ensures asked { OnOk result ((way : W.Way) → W.agrees writer.new way
        → desk (W.state writer.new way) counter.new
        ≡ after (cite_task (first_task (request_view request.entry.request.now)
        (cite_view item.now) first) ∷ []) (desk (W.state writer.old way) counter.old)) }
    ensures agreed { OnOk result ((way : W.Way) → W.agrees writer.new way
        → W.agrees writer.old way) }
{
    let cite_props = first_written_by(first);
    let cite = compared_cite(
        alloc,
        request,
        item.entry,
        &cite_props,
        item.purpose,
        writer,
        counter,
    )?;
    Ok(SpeculativeItemRender {
        rendered: cite.children,
        entry: item.entry,
        cite_props: noted(cite_props, cite.identifier_usage),
        checked_disambiguate: cite.checked_disambiguate,
        first_name: cite.first_name,
        delim_override: None,
        group_idx: None,
        locator: item.locator.clone()?,
        hidden: item.hidden,
        locale: item.locale.clone()?,
        purpose: item.purpose,
        apart: item.apart,
        collapse_verdict: None,
    })
}

/// What a cite is rendered by first.
fn first_written_by<'a, P>(first: FirstProperties) -> CiteProperties<'a, P>
    ensures { properties_view result ≡ first_written_by first }
{
    CiteProperties {
        certain: first.certain,
        speculative: SpeculativeCiteProperties::speculate(None, first.number, first.ibid),
    }
}

/// The properties of a cite that has written these identifiers.
fn noted<P: Drop>(
    properties: CiteProperties<'_, P>,
    identifier_usage: IdentifierUsage,
) -> CiteProperties<'_, P>
    ensures { properties_view result ≡ noted (properties_view properties.entry) identifier_usage }
{
    CiteProperties {
        certain: properties.certain,
        speculative: SpeculativeCiteProperties {
            identifier_usage,
            ..properties.speculative
        },
    }
}

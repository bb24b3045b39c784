//! A citation that stands for itself.
ghost use Rattle.std.specs.Prelude.{◌≡◌, IfOk, OnOk, IfErr, map};
ghost use Rattle.value_styles.specs.Ring.{HasNoRing};
ghost use Rattle.value_styles.specs.StyleView.{layout_view};
ghost use Rattle.driver_passes.specs.Request.{source_of};
ghost use Rattle.driver_passes.specs.RequestView.{cite_view, request_view};
ghost use Rattle.csl_driver.specs.Rings.{RefusesAlone};
ghost use Rattle.driver_assembly.specs.LastTree.{tree_by_purpose};
ghost use Rattle.driver_assembly.specs.ShownView.{shown_views};
ghost use Rattle.driver_lookup.specs.PropertiesView.{properties_view};
ghost use Rattle.csl_driver.specs.StandaloneCitation.{
  behind,
  lone_delimiter,
  lone_task,
  lone_tree,
  lone_trees,
  standalone,
};
ghost use Rattle.csl_writing.specs.LayoutWriting.{layout_writing};

use crate::error::{DriverError, RingLocation};
use csl_base::elem::ElemChildren;
use csl_base::entry::EntryLike;
use csl_base::style::Layout;
use csl_writing::layout_writer::LayoutWriter;
use csl_writing::properties::CiteProperties;
use driver_assembly::assemble::{ShownCite, assembled};
use driver_assembly::last_tree::tree_by_purpose;
use driver_passes::acyclic::AcyclicRequest;
use driver_passes::item::CitationItem;
use driver_passes::request::CitationRequest;
use driver_writers::counter::Renders;
use driver_writers::task::CiteTask;
use std::alloc::{AllocError, Global};

/// The tree of a cite that has no number and no place of its own.
fn lone_cite<T: EntryLike, P: Drop>(
    alloc: Global,
    request: AcyclicRequest<'_, '_, T, P>,
    item: &CitationItem<'_, T, P>,
    writer: &mut LayoutWriter,
) -> Result<ElemChildren, AllocError>
    ensures { IfOk result (λ tree. tree
        ≡ lone_tree (layout_writing T.answers) (source_of (request_view request.entry.request.now))
        (cite_view item.now)) }
{
    let properties = CiteProperties::for_sorting(item.locator.clone()?, 0);
    cite_by(alloc, request, item, &properties, writer)
}

/// The tree of such a cite by these properties.
fn cite_by<T: EntryLike, P>(
    alloc: Global,
    request: AcyclicRequest<'_, '_, T, P>,
    item: &CitationItem<'_, T, P>,
    properties: &CiteProperties<'_, P>,
    writer: &mut LayoutWriter,
) -> Result<ElemChildren, AllocError>
    ensures { let task = record (lone_task (source_of (request_view request.entry.request.now))
        (cite_view item.now))
        { properties = properties_view properties.now } in
        IfOk result (λ tree. tree ≡ tree_by_purpose (layout_writing T.answers) task) }
{
    let task = CiteTask {
        source: request.source(),
        entry: item.entry,
        properties,
        purpose: item.purpose,
        verdict: None,
        place: None,
    };
    tree_by_purpose(alloc, task, writer, &mut Renders::new())
}

/// The trees of the cites that aren't hidden and have content.
fn lone_cites<'r, T: EntryLike, P: Drop>(
    alloc: Global,
    acyclic: AcyclicRequest<'r, '_, T, P>,
) -> Result<Vec<ShownCite<'r>>, AllocError>
    ensures { let request = request_view acyclic.entry.request.now in
        IfOk result (λ cites. shown_views cites.items
        ≡ map (behind (lone_delimiter request.style.citation.layout))
        (lone_trees (layout_writing T.answers) (source_of request) request.cites)) }
{
    let request = acyclic.request;
    let delimiter = delimiter_of(&request.style().citation.layout);
    let mut writer = LayoutWriter::new();
    let mut cites = Vec::new(alloc);
    for item in &request.items {
        if !item.hidden {
            let tree = lone_cite(alloc, acyclic, item, &mut writer)?;
            if tree.has_content() {
                cites.push(ShownCite {
                    delimiter: Some(delimiter),
                    tree,
                })?;
            }
        }
    }
    Ok(cites)
}

/// What stands between cites: the layout's delimiter, or else a comma and a space.
fn delimiter_of(layout: &Layout) -> &str
    ensures { result.now ≡ lone_delimiter (layout_view layout.now) }
{
    match &layout.delimiter {
        Some(delimiter) => delimiter.as_str(),
        None => ", ",
    }
}

/// A citation that stands for itself, as for a preview.
///
/// Cites that are hidden or have no content are left out; where none is left the citation is empty.
/// The others stand between the layout's prefix and suffix, joined by its delimiter, or by `, `
/// where it has none, and aren't marked. Each is written with the number 0 and as if no other had
/// been written before.
///
/// # Errors
/// `MacroRing`, at `RingLocation::Request(0)`, only where the style has macros that call each other
/// in a ring, which is never answered. `OutOfMemory` where memory runs out, at any point.
pub fn standalone_citation<T: EntryLike, P: Drop>(
    alloc: Global,
    request: CitationRequest<'_, T, P>,
) -> Result<ElemChildren, DriverError>
    ensures ok { IfOk result (λ tree. tree ≡ standalone (layout_writing T.answers)
        (request_view request.entry)) }
    ensures no_ring { OnOk result (HasNoRing (request_view request.entry).style.macros) }
    ensures refused { IfErr result (RefusesAlone (request_view request.entry).style) }
{
    if let Some(macro_index) = request.source().ring(alloc)? {
        let place = RingLocation::Request(0);
        return Err(DriverError::MacroRing { place, macro_index });
    }
    let acyclic = AcyclicRequest { request: &request };
    let cites = lone_cites(alloc, acyclic)?;
    let layout = &request.style().citation.layout;
    Ok(assembled(alloc, layout, cites, true)?)
}

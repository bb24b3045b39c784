//! The bibliography of an answer.
ghost use Rattle.std.specs.Prelude.{◌≡◌, ◌∷◌, [], IfOk, OnOk, map, option_map, string_bytes};
ghost use Rattle.value_trees.specs.Metas.{child_has_any_meta};
ghost use Rattle.value_styles.specs.StyleView.{bibliography_view};
ghost use Rattle.driver_lookup.specs.PropertiesView.{properties_view};
ghost use Rattle.driver_passes.specs.Places.{cite_at};
ghost use Rattle.driver_passes.specs.RendersView.{item_view, renders_view};
ghost use Rattle.driver_passes.specs.Request.{wanted_source};
ghost use Rattle.driver_passes.specs.RequestView.{wanted_view};
ghost use Rattle.rounds_substitution.specs.ItemView.{rendered_items_view};
ghost use Rattle.driver_writers.specs.Desk.{after, desk};
ghost use Rattle.driver_writers.specs.Tasks.{item_task};
ghost use Rattle.std.specs.List.{find, position_or_len, remove};
ghost use Rattle.driver_assembly.specs.ChildOf.{child_of};
ghost use Rattle.driver_assembly.specs.BibliographyItems.{
  bibliography_of,
  bibliography_tasks,
  bibliography_with,
  cites_at,
  item_by,
  item_of,
  unlocated,
  with_first_field,
  written_item,
};
ghost use Rattle.driver_writers.specs.Writing.{writing_of};

use crate::rendered::{BibliographyItem, RenderedBibliography};
use csl_base::elem::{ElemChild, ElemChildren};
use csl_base::entry::EntryLike;
use csl_base::seq::Seq;
use csl_base::style::Bibliography;
use csl_base::text::Text;
use driver_lookup::properties::{CiteProperties, SpeculativeCiteProperties};
use driver_passes::acyclic::AcyclicBibliographyRequest;
use driver_passes::renders::{SpeculativeCiteRender, SpeculativeItemRender};
use driver_writers::asking;
use driver_writers::counter::Renders;
use driver_writers::pushed::push;
use driver_writers::task::ItemTask;
use driver_writers::writer::CiteWriter;
use rounds_substitution::substitution::substitute_subsequent_authors;
use std::alloc::{AllocError, Global};

/// What holds of a cite, without its locator.
fn unlocated<'a, T, P: Drop>(
    item: &SpeculativeItemRender<'a, T, P>,
) -> Result<CiteProperties<'a, P>, AllocError>
    ensures { IfOk result (λ p. properties_view p ≡ unlocated (item_view item.now)) }
{
    let speculative = &item.cite_props.speculative;
    Ok(CiteProperties {
        certain: item.cite_props.certain,
        speculative: SpeculativeCiteProperties {
            locator: None,
            citation_number: speculative.citation_number,
            ibid: speculative.ibid,
            disambiguation: speculative.disambiguation.clone()?,
            means: speculative.means.clone()?,
            identifier_usage: speculative.identifier_usage,
        },
    })
}

/// The entry of a cite as the bibliography writes it by these properties; `None` where the style
/// has none.
fn tree_by_properties<T: EntryLike, P, W: CiteWriter<T, P>>(
    alloc: Global,
    wanted: AcyclicBibliographyRequest<'_, '_, '_, T>,
    first: &SpeculativeItemRender<'_, T, P>,
    properties: &CiteProperties<'_, P>,
    writer: &mut W,
    counter: &mut Renders,
) -> Result<Option<ElemChildren>, W::Error>
    ensures tree { let task = record (item_of (wanted_source (wanted_view wanted.entry.wanted.now))
        (item_view first.now)) { properties = properties_view properties.now } in
        IfOk result (λ tree. (way : W.Way) → W.agrees writer.new way
        → tree ≡ (W.state writer.old way).item task) }
    ensures asked { let task = record (item_of (wanted_source (wanted_view wanted.entry.wanted.now))
        (item_view first.now)) { properties = properties_view properties.now } in
        OnOk result ((way : W.Way) → W.agrees writer.new way
        → desk (W.state writer.new way) counter.new
        ≡ after (item_task task ∷ []) (desk (W.state writer.old way) counter.old)) }
    ensures agreed { OnOk result ((way : W.Way) → W.agrees writer.new way
        → W.agrees writer.old way) }
{
    let task = ItemTask {
        source: wanted.source(),
        entry: first.entry,
        properties,
    };
    asking::written_item(alloc, task, writer, counter)
}

/// The entry of a cite as the bibliography writes it by these properties, and its key.
pub(crate) fn item_by_properties<T: EntryLike, P, W: CiteWriter<T, P>>(
    alloc: Global,
    wanted: AcyclicBibliographyRequest<'_, '_, '_, T>,
    first: &SpeculativeItemRender<'_, T, P>,
    properties: &CiteProperties<'_, P>,
    writer: &mut W,
    counter: &mut Renders,
) -> Result<(ElemChildren, String), W::Error>
    ensures item { let task = record (item_of (wanted_source (wanted_view wanted.entry.wanted.now))
        (item_view first.now)) { properties = properties_view properties.now } in
        IfOk result (λ item. (way : W.Way) → W.agrees writer.new way
        → (item.0, string_bytes item.1)
        ≡ item_by (writing_of T.answers (W.state writer.old way)) task) }
    ensures asked { let task = record (item_of (wanted_source (wanted_view wanted.entry.wanted.now))
        (item_view first.now)) { properties = properties_view properties.now } in
        OnOk result ((way : W.Way) → W.agrees writer.new way
        → desk (W.state writer.new way) counter.new
        ≡ after (item_task task ∷ []) (desk (W.state writer.old way) counter.old)) }
    ensures agreed { OnOk result ((way : W.Way) → W.agrees writer.new way
        → W.agrees writer.old way) }
{
    let text = tree_by_properties(alloc, wanted, first, properties, writer, counter)?;
    let mut content = text.unwrap_or(ElemChildren::new(alloc));
    content.simplify_children()?;
    Ok((content, String::from_str(alloc, first.entry.key())?))
}

/// The entry of a cite as the bibliography writes it, and its key.
fn written_item<T: EntryLike, P: Drop, W: CiteWriter<T, P>>(
    alloc: Global,
    wanted: AcyclicBibliographyRequest<'_, '_, '_, T>,
    first: &SpeculativeItemRender<'_, T, P>,
    writer: &mut W,
    counter: &mut Renders,
) -> Result<(ElemChildren, String), W::Error>
    ensures item { IfOk result (λ item. (way : W.Way) → W.agrees writer.new way
        → (item.0, string_bytes item.1)
        ≡ written_item (writing_of T.answers (W.state writer.old way))
        (wanted_source (wanted_view wanted.entry.wanted.now)) (item_view first.now)) }
    ensures asked { OnOk result ((way : W.Way) → W.agrees writer.new way
        → desk (W.state writer.new way) counter.new
        ≡ after (item_task (item_of (wanted_source (wanted_view wanted.entry.wanted.now))
        (item_view first.now)) ∷ []) (desk (W.state writer.old way) counter.old)) }
    ensures agreed { OnOk result ((way : W.Way) → W.agrees writer.new way
        → W.agrees writer.old way) }
{
    let properties = unlocated(first)?;
    item_by_properties(alloc, wanted, first, &properties, writer, counter)
}

/// The cite at a place, if one stands there.
pub(crate) fn cite_at<'c, 'a, T, P>(
    cites: &'c [SpeculativeCiteRender<'_, 'a, T, P>],
    place: (usize, usize),
) -> Option<&'c SpeculativeItemRender<'a, T, P>>
    ensures { option_map (λ i. item_view i.now) result
        ≡ option_map (λ c. c.1) (cite_at (renders_view cites.now) place) }
{
    let (request, cite) = place;
    let of_request = cites.get(request)?;
    of_request.items.get(cite)
}

/// The entries of the cites at these places, as the bibliography writes them.
fn written_items<T: EntryLike, P: Drop, W: CiteWriter<T, P>>(
    alloc: Global,
    wanted: AcyclicBibliographyRequest<'_, '_, '_, T>,
    cites: &[SpeculativeCiteRender<'_, '_, T, P>],
    firsts: &[(usize, usize)],
    writer: &mut W,
    counter: &mut Renders,
) -> Result<Vec<(ElemChildren, String)>, W::Error>
    ensures items { IfOk result (λ made. (way : W.Way) → W.agrees writer.new way
        → rendered_items_view made.items
        ≡ map (written_item (writing_of T.answers (W.state writer.old way))
        (wanted_source (wanted_view wanted.entry.wanted.now)))
        (cites_at (renders_view cites.now) firsts.now)) }
    ensures asked { OnOk result ((way : W.Way) → W.agrees writer.new way
        → desk (W.state writer.new way) counter.new
        ≡ after (bibliography_tasks (wanted_source (wanted_view wanted.entry.wanted.now))
        (cites_at (renders_view cites.now) firsts.now))
        (desk (W.state writer.old way) counter.old)) }
    ensures agreed { OnOk result ((way : W.Way) → W.agrees writer.new way
        → W.agrees writer.old way) }
{
    let mut items = Vec::with_capacity(alloc, firsts.len())?;
    for place in firsts {
        if let Some(first) = cite_at(cites, *place) {
            let item = written_item(alloc, wanted, first, writer, counter)?;
            push(&mut items, item)?;
        }
    }
    Ok(items)
}

/// Takes the first field out of an item, if it has one.
fn take_first_field(content: &mut ElemChildren) -> Option<ElemChild>
    ensures field { result ≡ option_map child_of (find child_has_any_meta content.old) }
    ensures rest { content.new
        ≡ remove content.old (position_or_len child_has_any_meta content.old) }
{
    content.remove_any_meta()
}

/// An item from its tree and its key, with its first field apart where second fields are aligned.
fn with_first_field(aligned: bool, mut content: ElemChildren, key: String) -> BibliographyItem
    ensures { result ≡ with_first_field aligned (content, string_bytes key) }
{
    let key = Text::new(key);
    if !aligned {
        return BibliographyItem {
            key,
            first_field: None,
            content,
        };
    }
    let first_field = take_first_field(&mut content);
    BibliographyItem {
        key,
        first_field,
        content,
    }
}

/// The same of all items.
fn with_first_fields(
    alloc: Global,
    aligned: bool,
    items: Vec<(ElemChildren, String)>,
) -> Result<Vec<BibliographyItem>, AllocError>
    ensures { IfOk result
        (λ v. v.items ≡ map (with_first_field aligned) (rendered_items_view items.items)) }
{
    let mut finished = Vec::with_capacity(alloc, items.len())?;
    for (content, key) in items {
        finished.push(with_first_field(aligned, content, key))?;
    }
    Ok(finished)
}

/// The bibliography of a style that has these items, each with its first field apart where second
/// fields are aligned.
pub(crate) fn bibliography_with(
    alloc: Global,
    bibliography: &Bibliography,
    items: Vec<(ElemChildren, String)>,
) -> Result<RenderedBibliography, AllocError>
    ensures { IfOk result (λ r. r ≡ bibliography_with (bibliography_view bibliography.now)
        (rendered_items_view items.items)) }
{
    let aligned = bibliography.second_field_align.is_some();
    Ok(RenderedBibliography {
        hanging_indent: bibliography.hanging_indent,
        second_field_align: bibliography.second_field_align,
        line_spacing: bibliography.line_spacing,
        entry_spacing: bibliography.entry_spacing,
        items: Seq::new(with_first_fields(alloc, aligned, items)?),
    })
}

/// The bibliography of a style: an item for each of the cites at these places, which are the first
/// ones of its entries, in its order. Each is written by what holds of its cite, but without a
/// locator; then names that it shares with one before it are substituted, and where second fields
/// are aligned its first field, the first child of its tree that stands for something, is taken
/// out. Each rendering is counted.
///
/// # Errors
/// The writer's; lack of memory among others.
pub fn bibliography_of<T: EntryLike, P: Drop, W: CiteWriter<T, P>>(
    alloc: Global,
    wanted: AcyclicBibliographyRequest<'_, '_, '_, T>,
    bibliography: &Bibliography,
    cites: &[SpeculativeCiteRender<'_, '_, T, P>],
    firsts: &[(usize, usize)],
    writer: &mut W,
    counter: &mut Renders,
) -> Result<RenderedBibliography, W::Error>
    ensures bibliography { IfOk result (λ r. (way : W.Way) → W.agrees writer.new way
        → r
        ≡ bibliography_of (writing_of T.answers (W.state writer.old way))
        (wanted_source (wanted_view wanted.entry.wanted.now)) (bibliography_view bibliography.now)
        (cites_at (renders_view cites.now) firsts.now)) }
    ensures asked { OnOk result ((way : W.Way) → W.agrees writer.new way
        → desk (W.state writer.new way) counter.new
        ≡ after (bibliography_tasks (wanted_source (wanted_view wanted.entry.wanted.now))
        (cites_at (renders_view cites.now) firsts.now))
        (desk (W.state writer.old way) counter.old)) }
    ensures agreed { OnOk result ((way : W.Way) → W.agrees writer.new way
        → W.agrees writer.old way) }
{
    let mut items = written_items(alloc, wanted, cites, firsts, writer, counter)?;
    let substitute = bibliography.subsequent_author_substitute.as_deref();
    let rule = bibliography.subsequent_author_substitute_rule;
    substitute_subsequent_authors(alloc, substitute, rule, &mut items)?;
    Ok(bibliography_with(alloc, bibliography, items)?)
}

//! A bibliography whose items are written by means of their own, where works are disambiguated as
//! CSL 1.0.2 has it.
ghost use Rattle.std.specs.Prelude.{◌≡◌, ◌∷◌, [], IfOk, OnOk, length, map, string_bytes};
ghost use Rattle.value_styles.specs.StyleView.{bibliography_view};
ghost use Rattle.driver_lookup.specs.PropertiesView.{properties_view};
ghost use Rattle.driver_passes.specs.RendersView.{item_view, renders_view};
ghost use Rattle.driver_passes.specs.Request.{wanted_source};
ghost use Rattle.driver_passes.specs.RequestView.{wanted_view};
ghost use Rattle.rounds_substitution.specs.ItemView.{rendered_items_view};
ghost use Rattle.driver_writers.specs.Desk.{after, desk};
ghost use Rattle.driver_writers.specs.Tasks.{item_task};
ghost use Rattle.driver_writers.specs.Writing.{writing_of};
ghost use Rattle.driver_assembly.specs.BibliographyItems.{item_by};
ghost use Rattle.driver_assembly.specs.ByMeans.{
  bibliography_by_means,
  cites_with_means,
  properties_by,
  task_by,
  tasks_by_means,
};

use crate::bibliography::{bibliography_with, cite_at, item_by_properties};
use crate::rendered::RenderedBibliography;
use csl_base::elem::ElemChildren;
use csl_base::entry::EntryLike;
use csl_base::style::Bibliography;
use driver_lookup::means::Means;
use driver_lookup::properties::{CertainCiteProperties, CiteProperties, SpeculativeCiteProperties};
use driver_lookup::state::{DisambiguateState, IbidState};
use driver_passes::acyclic::AcyclicBibliographyRequest;
use driver_passes::renders::{SpeculativeCiteRender, SpeculativeItemRender};
use driver_writers::counter::Renders;
use driver_writers::pushed::push;
use driver_writers::writer::CiteWriter;
use mentions_authors::substitution::substitute_repeated_authors;
use std::alloc::Global;

/// The means that disambiguate an item of a bibliography from others. Names aren't among them: the
/// bibliography's own options say how these are written.
#[derive(Clone, Copy, PartialEq, Eq)]
pub struct ItemMeans {
    /// Whether the test of `disambiguate` holds.
    pub choose: bool,
    /// The suffix of its year; 0 is `a`.
    pub suffix: Option<usize>,
}

/// What an item is written by: what holds of a cite, but without a locator, and with these means.
/// It repeats no cite and is near none, nor is it the first.
fn properties_by<'a, T, P: Drop>(
    first: &SpeculativeItemRender<'a, T, P>,
    means: ItemMeans,
) -> CiteProperties<'a, P>
    ensures { properties_view result ≡ properties_by (item_view first.now) means }
{
    let certain = first.cite_props.certain;
    let speculative = &first.cite_props.speculative;
    CiteProperties {
        certain: CertainCiteProperties {
            is_near_note: false,
            is_first: false,
            ..certain
        },
        speculative: SpeculativeCiteProperties {
            locator: None,
            citation_number: speculative.citation_number,
            ibid: IbidState::Different,
            disambiguation: DisambiguateState::None,
            means: Means {
                names: None,
                choose: means.choose,
                suffix: means.suffix,
            },
            identifier_usage: speculative.identifier_usage,
        },
    }
}

/// The entry of a cite as the bibliography writes it by these means, and its key.
fn item_by_means<T: EntryLike, P: Drop, W: CiteWriter<T, P>>(
    alloc: Global,
    wanted: AcyclicBibliographyRequest<'_, '_, '_, T>,
    first: &SpeculativeItemRender<'_, T, P>,
    means: ItemMeans,
    writer: &mut W,
    counter: &mut Renders,
) -> Result<(ElemChildren, String), W::Error>
    ensures item { let source = wanted_source (wanted_view wanted.entry.wanted.now) in
        IfOk result (λ item. (way : W.Way) → W.agrees writer.new way
        → (item.0, string_bytes item.1)
        ≡ item_by (writing_of T.answers (W.state writer.old way))
        (task_by source (item_view first.now, means))) }
    ensures asked { let source = wanted_source (wanted_view wanted.entry.wanted.now) in
        OnOk result ((way : W.Way) → W.agrees writer.new way
        → desk (W.state writer.new way) counter.new
        ≡ after (item_task (task_by source (item_view first.now, means)) ∷ [])
        (desk (W.state writer.old way) counter.old)) }
    ensures agreed { OnOk result ((way : W.Way) → W.agrees writer.new way
        → W.agrees writer.old way) }
{
    let properties = properties_by(first, means);
    item_by_properties(alloc, wanted, first, &properties, writer, counter)
}

/// The entries of the cites at these places, as the bibliography writes them by their means.
fn items_by_means<T: EntryLike, P: Drop, W: CiteWriter<T, P>>(
    alloc: Global,
    wanted: AcyclicBibliographyRequest<'_, '_, '_, T>,
    cites: &[SpeculativeCiteRender<'_, '_, T, P>],
    firsts: &[(usize, usize)],
    means: &[ItemMeans],
    writer: &mut W,
    counter: &mut Renders,
) -> Result<Vec<(ElemChildren, String)>, W::Error>
    requires { length means.now ≡ length firsts.now }
    ensures items { let source = wanted_source (wanted_view wanted.entry.wanted.now) in
        IfOk result (λ made. (way : W.Way) → W.agrees writer.new way
        → rendered_items_view made.items
        ≡ map (λ p. item_by (writing_of T.answers (W.state writer.old way)) (task_by source p))
        (cites_with_means (renders_view cites.now) firsts.now means.now)) }
    ensures asked { let source = wanted_source (wanted_view wanted.entry.wanted.now) in
        OnOk result ((way : W.Way) → W.agrees writer.new way
        → desk (W.state writer.new way) counter.new
        ≡ after (tasks_by_means source
        (cites_with_means (renders_view cites.now) firsts.now means.now))
        (desk (W.state writer.old way) counter.old)) }
    ensures agreed { OnOk result ((way : W.Way) → W.agrees writer.new way
        → W.agrees writer.old way) }
{
    let mut items = Vec::with_capacity(alloc, firsts.len())?;
    for (k, place) in firsts.iter().enumerate() {
        let own = means[k];
        if let Some(first) = cite_at(cites, *place) {
            let item = item_by_means(alloc, wanted, first, own, writer, counter)?;
            push(&mut items, item)?;
        }
    }
    Ok(items)
}

/// The bibliography of a style, where works are disambiguated as CSL 1.0.2 has it: an item for each
/// of the cites at these places, which are the first ones of its entries, in its order, by the
/// means at the same index. Each is written by what holds of its cite, but without a locator, and
/// of positions `subsequent` alone holds; then authors that repeat are replaced
/// (`substitute_repeated_authors`), and where second fields are aligned its first field is taken
/// out. Each rendering is counted.
///
/// # Errors
/// The writer's; lack of memory among others.
pub fn bibliography_by_means<T: EntryLike, P: Drop, W: CiteWriter<T, P>>(
    alloc: Global,
    wanted: AcyclicBibliographyRequest<'_, '_, '_, T>,
    bibliography: &Bibliography,
    cites: &[SpeculativeCiteRender<'_, '_, T, P>],
    firsts: &[(usize, usize)],
    means: &[ItemMeans],
    writer: &mut W,
    counter: &mut Renders,
) -> Result<RenderedBibliography, W::Error>
    requires { length means.now ≡ length firsts.now }
    ensures bibliography { let source = wanted_source (wanted_view wanted.entry.wanted.now) in
        IfOk result (λ r. (way : W.Way) → W.agrees writer.new way
        → r ≡ bibliography_by_means (writing_of T.answers (W.state writer.old way))
        source (bibliography_view bibliography.now)
        (cites_with_means (renders_view cites.now) firsts.now means.now)) }
    ensures asked { let source = wanted_source (wanted_view wanted.entry.wanted.now) in
        OnOk result ((way : W.Way) → W.agrees writer.new way
        → desk (W.state writer.new way) counter.new
        ≡ after (tasks_by_means source
        (cites_with_means (renders_view cites.now) firsts.now means.now))
        (desk (W.state writer.old way) counter.old)) }
    ensures agreed { OnOk result ((way : W.Way) → W.agrees writer.new way
        → W.agrees writer.old way) }
{
    let mut items = items_by_means(alloc, wanted, cites, firsts, means, writer, counter)?;
    let substitute = bibliography.subsequent_author_substitute.as_deref();
    let rule = bibliography.subsequent_author_substitute_rule;
    substitute_repeated_authors(alloc, substitute, rule, &mut items)?;
    Ok(bibliography_with(alloc, bibliography, items)?)
}

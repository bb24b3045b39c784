//! The passes by themselves, on the cites of a document as they are written without a driver.
ghost use Rattle.std.specs.Prelude.{All};
ghost use Rattle.value_styles.specs.Ring.{HasNoRing};
ghost use Rattle.driver_passes.specs.Places.{AreDistinct, IsPlace};
ghost use Rattle.driver_passes.specs.RendersView.{renders_view};
ghost use Rattle.csl_writing.specs.ContextSource.{context_source};

use crate::account::print_state;
use crate::asking::Seen;
use crate::rings::ringless;
use csl_base::elem::ElemChildren;
use csl_base::entry::{EntryLike, PlainEntry};
use csl_base::style::{Bibliography, IndependentStyle};
use csl_driver::cite;
use csl_driver::counter::Renders;
use csl_driver::item::CitationItem;
use csl_driver::lookup::StyleContext;
use csl_driver::passes::{
    AmbiguousGroup, Marks, SpeculativeCiteRender, SpeculativeItemRender, collapse_items,
    disambiguate_names, disambiguate_with_choose, disambiguate_year_suffix, find_ambiguous_sets,
    group_cites, substitute_subsequent_authors,
};
use csl_driver::properties::CiteProperties;
use csl_driver::request::CitationRequest;
use document_answer::error::RunError;
use std::alloc::{AllocError, Global};
use std::convert::Infallible;

type Item<'e> = CitationItem<'e, PlainEntry, Infallible>;

type Request<'e> = CitationRequest<'e, PlainEntry, Infallible>;

type Cite<'e> = SpeculativeItemRender<'e, PlainEntry, Infallible>;

type Cites<'r, 'e> = SpeculativeCiteRender<'r, 'e, PlainEntry, Infallible>;

/// What is written of a cite of the entry.
fn written_alone(
    alloc: Global,
    context: &StyleContext<'_>,
    entry: &PlainEntry,
) -> Result<cite::Cite, AllocError>
    requires no_ring { HasNoRing (context_source context.now).style.macros }
{
    let properties: CiteProperties<'_, Infallible> = CiteProperties::for_sorting(None, 0);
    let cite = context.do_citation(
        alloc,
        entry,
        &properties,
        None,
        None,
        None,
        None,
        &mut Renders::new(),
    );
    drop(properties);
    cite
}

/// A cite of the item's entry, in this style.
fn written<'e>(
    alloc: Global,
    style: &IndependentStyle,
    item: &Item<'e>,
) -> Result<Cite<'e>, RunError> {
    let context = ringless(alloc, style, &[])?;
    let cite = written_alone(alloc, &context, item.entry)?;
    Ok(SpeculativeItemRender {
        rendered: cite.children,
        entry: item.entry,
        cite_props: CiteProperties::for_sorting(None, 0),
        checked_disambiguate: cite.checked_disambiguate,
        first_name: cite.first_name,
        delim_override: None,
        group_idx: None,
        locator: None,
        hidden: item.hidden,
        locale: None,
        purpose: None,
        apart: None,
        collapse_verdict: None,
    })
}

/// The cites of a request.
fn written_of<'r, 'e>(alloc: Global, request: &'r Request<'e>) -> Result<Cites<'r, 'e>, RunError> {
    let mut items = Vec::new(alloc);
    for item in &request.items {
        items.push(written(alloc, request.style(), item)?)?;
    }
    Ok(SpeculativeCiteRender { items, request })
}

/// The cites of all requests.
fn all_written<'r, 'e>(
    alloc: Global,
    requests: &'r [Request<'e>],
) -> Result<Vec<Cites<'r, 'e>>, RunError> {
    let mut cites = Vec::new(alloc);
    for request in requests {
        cites.push(written_of(alloc, request)?)?;
    }
    Ok(cites)
}

fn print_places(rt: &impl Print, group: &AmbiguousGroup) {
    let _ = print!(rt; "group");
    for place in group {
        let _ = print!(rt; " {}.{}", place.0, place.1);
    }
    let _ = println!(rt; "");
}

fn print_marks(rt: &impl Print, pass: &str, marks: &Marks) {
    let _ = print!(rt; "{pass}:");
    for mark in marks {
        let _ = print!(rt; " {}.{} ", mark.0.0, mark.0.1);
        print_state(rt, &mark.1);
    }
    let _ = println!(rt; "");
}

/// Prints the marks of a group by each pass.
fn mark_group(
    rt: &(impl Print + Eprint + AllocGlobal),
    cites: &[Cites<'_, '_>],
    group: &AmbiguousGroup,
) -> Result<(), AllocError>
    requires exist { All (IsPlace (renders_view cites.now)) group.now.items }
    requires distinct { AreDistinct group.now.items }
{
    print_places(rt, group);
    let _ = eprintln!(rt; "disambiguate_names");
    print_marks(rt, "names", &disambiguate_names(rt.alloc(), cites, group)?);
    let _ = eprintln!(rt; "disambiguate_with_choose");
    print_marks(
        rt,
        "choose",
        &disambiguate_with_choose(rt.alloc(), cites, group)?,
    );
    let _ = eprintln!(rt; "disambiguate_year_suffix");
    print_marks(
        rt,
        "suffixes",
        &disambiguate_year_suffix(rt.alloc(), cites, group)?,
    );
    Ok(())
}

/// Prints the ambiguous groups, and their marks.
fn mark_all(
    rt: &(impl Print + Eprint + AllocGlobal),
    cites: &[Cites<'_, '_>],
) -> Result<(), AllocError> {
    let _ = eprintln!(rt; "find_ambiguous_sets");
    let groups = find_ambiguous_sets(rt.alloc(), cites)?;
    for group in &groups {
        mark_group(rt, cites, group)?;
    }
    Ok(())
}

fn print_cite(rt: &impl Print, cite: &Cite<'_>) {
    if let Some(block) = cite.group_idx {
        let _ = print!(rt; "block {block} ");
    }
    if let Some(delimiter) = cite.delim_override {
        let _ = print!(rt; "behind `{delimiter}` ");
    }
    if cite.hidden {
        let _ = print!(rt; "hidden ");
    }
    let _ = println!(rt; "{}", cite.rendered);
}

/// Groups and collapses the cites of a request, and prints them.
fn group_one(
    rt: &(impl Print + Eprint + AllocGlobal),
    cites: &mut Cites<'_, '_>,
) -> Result<(), AllocError> {
    let _ = eprintln!(rt; "group_cites");
    group_cites(rt.alloc(), cites)?;
    collapse_items(cites);
    for cite in &cites.items {
        print_cite(rt, cite);
    }
    Ok(())
}

/// The item of this style's bibliography for this cite, if it has content, with its key.
fn item_of(
    alloc: Global,
    style: &IndependentStyle,
    item: &Item<'_>,
    counter: &mut Renders,
) -> Result<Option<(ElemChildren, String)>, RunError> {
    let context = ringless(alloc, style, &[])?;
    let properties: CiteProperties<'_, Infallible> = CiteProperties::for_sorting(None, 0);
    let tree = context.bibliography(alloc, item.entry, &properties, None, None, counter);
    drop(properties);
    match tree? {
        Some(tree) => Ok(Some((tree, String::from_str(alloc, item.entry.key())?))),
        None => Ok(None),
    }
}

/// The items of a bibliography.
fn items_of(alloc: Global, request: &Request<'_>) -> Result<Vec<(ElemChildren, String)>, RunError> {
    let mut counter = Renders::new();
    let mut items = Vec::new(alloc);
    for item in &request.items {
        if let Some(found) = item_of(alloc, request.style(), item, &mut counter)? {
            items.push(found)?;
        }
    }
    Ok(items)
}

/// Substitutes repeated authors of the items, and prints these.
fn substitute(
    rt: &(impl Print + Eprint + AllocGlobal),
    request: &Request<'_>,
    bibliography: &Bibliography,
) -> Result<(), RunError> {
    let _ = eprintln!(rt; "prepare");
    let mut items = items_of(rt.alloc(), request)?;
    let _ = eprintln!(rt; "substitute_subsequent_authors");
    substitute_subsequent_authors(
        rt.alloc(),
        bibliography.subsequent_author_substitute.as_deref(),
        bibliography.subsequent_author_substitute_rule,
        &mut items,
    )?;
    for item in &items {
        let _ = println!(rt; "{}\t{}", item.1, item.0);
    }
    Ok(())
}

/// Makes the calls of each request that change it.
fn change_each(
    rt: &(impl Print + Eprint + AllocGlobal),
    cites: &mut [Cites<'_, '_>],
) -> Result<(), AllocError> {
    for r in 0..cites.len() {
        group_one(rt, &mut cites[r])?;
    }
    Ok(())
}

/// Marks the cites of these requests, and makes the calls that change them.
fn pass_over(
    rt: &(impl Print + Eprint + AllocGlobal),
    requests: &[Request<'_>],
) -> Result<(), RunError> {
    let mut cites = all_written(rt.alloc(), requests)?;
    mark_all(rt, &cites)?;
    Ok(change_each(rt, &mut cites)?)
}

/// Calls the passes on the cites of these requests, and prints what they give.
pub fn by_passes(
    rt: &(impl Print + Eprint + AllocGlobal),
    requests: &[Request<'_>],
) -> Result<Seen, RunError> {
    pass_over(rt, requests)?;
    for request in requests {
        if let Some(bibliography) = &request.style().bibliography {
            substitute(rt, request, bibliography)?;
        }
    }
    Ok(Seen::Answer)
}

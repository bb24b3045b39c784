//! The members of an ambiguous group, found by their places.
ghost use Rattle.std.specs.Prelude.{◌≡◌, All, IfOk};
ghost use Rattle.driver_passes.specs.Places.{IsPlace};
ghost use Rattle.driver_passes.specs.RendersView.{item_view, renders_view};
ghost use Rattle.driver_passes.specs.RequestView.{request_view};
ghost use Rattle.rounds_names.specs.NamedCites.{
  first_adds_names,
  greatest_step,
  named_cite,
  named_cites,
};

use crate::named_cite::{NamedCite, rule_of, start_of};
use crate::persons::persons_of;
use driver_passes::renders::{SpeculativeCiteRender, SpeculativeItemRender};
use driver_passes::request::CitationRequest;
use std::alloc::{AllocError, Global};

fn named_cite<T, P>(
    alloc: Global,
    place: (usize, usize),
    request: &CitationRequest<'_, T, P>,
    item: &SpeculativeItemRender<'_, T, P>,
) -> Result<NamedCite, AllocError>
    ensures { IfOk result
        (λ m. m ≡ named_cite place (request_view request.now) (item_view item.now)) }
{
    let state = &item.cite_props.speculative.disambiguation;
    Ok(NamedCite {
        place,
        persons: persons_of(alloc, &item.rendered)?,
        rule: rule_of(&request.style().citation),
        may_be_named: state.may_disambiguate_names(),
        start: start_of(state, &item.first_name)?,
    })
}

/// The members of a group, in its order.
pub(crate) fn named_cites<T, P>(
    alloc: Global,
    cites: &[SpeculativeCiteRender<'_, '_, T, P>],
    group: &[(usize, usize)],
) -> Result<Vec<NamedCite>, AllocError>
    requires exist { All (IsPlace (renders_view cites.now)) group.now }
    ensures { IfOk result (λ v. v.items ≡ named_cites (renders_view cites.now) group.now) }
{
    let mut found = Vec::new(alloc);
    for place in group {
        let cite = &cites[place.0];
        let item = &cite.items[place.1];
        found.push(named_cite(alloc, *place, cite.request, item)?)?;
    }
    Ok(found)
}

/// Whether the style of the first request adds names.
pub(crate) fn first_adds_names<T, P>(cites: &[SpeculativeCiteRender<'_, '_, T, P>]) -> bool
    ensures { result ≡ first_adds_names (renders_view cites.now) }
{
    match cites.first() {
        Some(cite) => cite.request.style().citation.disambiguate_add_names,
        None => false,
    }
}

/// How many names may be tried.
pub(crate) fn greatest_step(adds_names: bool, group: &[NamedCite]) -> usize
    ensures { result ≡ greatest_step adds_names group.now }
{
    if !adds_names {
        return 1;
    }
    let mut greatest = 0;
    for member in group {
        greatest = member.persons.as_slice().len().max(greatest);
    }
    greatest
}

//! The cites of citations in the order of the style.
use crate::cites::{Citation, Cite};
use crate::entries::Items;
use crate::facts::first_cite;
use crate::setting::Setting;
use cite_limits::error::LimitError;
use cite_sorting::keys::Key;
use cite_sorting::order::{sorted_indexes, tied_indexes};
use indexmap::IndexSet;
use std::alloc::{AllocError, Global};

/// A citation with its cites in the order of the style.
#[derive(Drop)]
pub struct SortedCitation<'d> {
    pub cites: Vec<&'d Cite>,
    /// The places of the cites in the citation of the document.
    pub places: Vec<usize>,
    /// The number of its note.
    pub note: usize,
    /// Whether nothing else stands in its note.
    pub is_alone: bool,
}

/// The citations with their cites in the order of the style.
///
/// # Errors
///
/// `Exceeded` where the keys take more than the budget has; `OutOfMemory`.
pub fn sorted_citations<'d>(
    alloc: Global,
    setting: Setting<'_>,
    items: &Items<'d>,
    citations: &'d [Citation],
) -> Result<Vec<SortedCitation<'d>>, LimitError> {
    let ranks = item_ranks(alloc, setting, items, citations)?;
    let mut sorted = Vec::new(alloc);
    for (number, citation) in citations.iter().enumerate() {
        let places = cite_places(alloc, setting, items, citation, ranks.as_slice())?;
        sorted.push(SortedCitation {
            cites: cites_at(alloc, citation, places.as_slice())?,
            places,
            note: citation.note.unwrap_or(number.saturating_add(1)),
            is_alone: citation.is_alone,
        })?;
    }
    Ok(sorted)
}

/// The places of the cites of a citation in the order of the style, where items have these ranks.
fn cite_places(
    alloc: Global,
    setting: Setting<'_>,
    items: &Items<'_>,
    citation: &Citation,
    ranks: &[usize],
) -> Result<Vec<usize>, LimitError> {
    let keys = setting.programs.citation_keys.as_slice();
    if keys.is_empty() || !is_sorted(citation) {
        return Ok(own_places(alloc, citation)?);
    }
    if has_locator(citation) && keys.iter().any(|key| key.reads_locator()) {
        return places_by_keys(alloc, setting, keys, items, citation);
    }
    Ok(places_by_ranks(alloc, items, citation, ranks)?)
}

/// Whether the cites of a citation are sorted, where the style has keys.
fn is_sorted(citation: &Citation) -> bool {
    citation.cites.len() > 1 && !citation.keeps_order()
}

fn has_locator(citation: &Citation) -> bool {
    citation.cites.iter().any(|cite| cite.locator.is_some())
}

/// The ranks of items by the keys of citations, at the places of the items. Those whose keys are
/// all equal have one rank. An item that is in no citation that is sorted has none of its own.
fn item_ranks(
    alloc: Global,
    setting: Setting<'_>,
    items: &Items<'_>,
    citations: &[Citation],
) -> Result<Vec<usize>, LimitError> {
    let keys = setting.programs.citation_keys.as_slice();
    let mut ranks = Vec::new(alloc);
    if keys.is_empty() {
        return Ok(ranks);
    }
    ranks.resize(items.references.len(), 0)?;
    let compared = compared_items(alloc, items, citations)?;
    let mut facts = Vec::new(alloc);
    for item in &compared {
        if let Some(reference) = items.reference(*item) {
            facts.push(first_cite(reference, None, item.saturating_add(1)))?;
        }
    }
    let ties = tied_indexes(alloc, setting.cite_keys(), keys, facts.as_slice())?;
    for (rank, tied) in ties.iter().enumerate() {
        for place in tied {
            if let Some(item) = compared.get(*place) {
                set_rank(&mut ranks, *item, rank);
            }
        }
    }
    Ok(ranks)
}

fn set_rank(ranks: &mut Vec<usize>, item: usize, rank: usize) {
    if let Some(known) = ranks.get_mut(item) {
        *known = rank;
    }
}

/// The items of citations that are sorted.
fn compared_items(
    alloc: Global,
    items: &Items<'_>,
    citations: &[Citation],
) -> Result<Vec<usize>, AllocError> {
    let mut seen = IndexSet::new(alloc);
    let mut compared = Vec::new(alloc);
    for citation in citations {
        if !is_sorted(citation) {
            continue;
        }
        for cite in &citation.cites {
            let item = items.place(cite.id.as_str()).unwrap_or(0);
            if seen.insert(item)? {
                compared.push(item)?;
            }
        }
    }
    Ok(compared)
}

/// The places of the cites of a citation, in the order of the ranks of their items.
fn places_by_ranks(
    alloc: Global,
    items: &Items<'_>,
    citation: &Citation,
    ranks: &[usize],
) -> Result<Vec<usize>, AllocError> {
    let mut rows = Vec::new(alloc);
    for (place, cite) in citation.cites.iter().enumerate() {
        let item = items.place(cite.id.as_str()).unwrap_or(0);
        let rank = ranks.get(item).copied().unwrap_or(0);
        rows.push(Row { rank, place })?;
    }
    rows.sort()?;
    let mut places = Vec::new(alloc);
    for row in &rows {
        places.push(row.place)?;
    }
    Ok(places)
}

/// A cite with the rank of its item. Where this is the same, cites are in their own order.
#[derive(Clone, Copy, PartialEq, Eq, PartialOrd, Ord)]
struct Row {
    rank: usize,
    place: usize,
}

/// The places of the cites of a citation, in their order.
fn own_places(alloc: Global, citation: &Citation) -> Result<Vec<usize>, AllocError> {
    let mut places = Vec::new(alloc);
    for (place, _) in citation.cites.iter().enumerate() {
        places.push(place)?;
    }
    Ok(places)
}

/// The places of the cites of a citation, in the order of the keys.
fn places_by_keys<'s>(
    alloc: Global,
    setting: Setting<'s>,
    keys: &'s [Key<'s>],
    items: &Items<'_>,
    citation: &Citation,
) -> Result<Vec<usize>, LimitError> {
    let mut facts = Vec::new(alloc);
    for cite in &citation.cites {
        let place = items.place(cite.id.as_str()).unwrap_or(0);
        if let Some(reference) = items.reference(place) {
            let number = place.saturating_add(1);
            facts.push(first_cite(reference, cite.locator.as_ref(), number))?;
        }
    }
    sorted_indexes(alloc, setting.cite_keys(), keys, facts.as_slice())
}

/// The cites at these places of a citation.
fn cites_at<'d>(
    alloc: Global,
    citation: &'d Citation,
    places: &[usize],
) -> Result<Vec<&'d Cite>, AllocError> {
    let mut cites = Vec::new(alloc);
    for place in places {
        if let Some(cite) = citation.cites.get(*place) {
            cites.push(cite)?;
        }
    }
    Ok(cites)
}

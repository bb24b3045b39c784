//! Cites of items that aren't there.
use cite_tasks::cites::{Citation, Cite, MissingCite};
use cite_walk::cite::CiteLocator;
use reference_values::reference::References;
use std::alloc::{AllocError, Global};
use std::fmt;
use std::mem::replace;
use style_elements::nearest::Nearest;

/// How many ids are compared with others at most, for all guesses together.
const MOST_COMPARED: usize = 1_000_000;

/// The items that cites may be of.
pub trait KnownItems {
    /// Whether there is an item with this id.
    fn has(&self, id: &str) -> bool;

    /// Items, among them each that `has` knows.
    fn references(&self) -> &References;
}

impl KnownItems for References {
    fn has(&self, id: &str) -> bool {
        self.contains(id)
    }

    fn references(&self) -> &References {
        self
    }
}

/// An item that is cited, and isn't there.
#[derive(Debug, Drop)]
pub struct UnknownItem {
    /// The place of the citation, from 0.
    pub citation: usize,
    /// The place of the cite in it, from 0.
    pub cite: usize,
    pub id: String,
    /// The id of an item that was meant, maybe.
    pub nearest: Option<String>,
}

impl fmt::Display for UnknownItem {
    fn fmt<W: fmt::Write>(&self, f: &mut fmt::Formatter<W>) -> fmt::Result {
        let id = &self.id;
        write!(f, "there is no item `{id}`")?;
        match &self.nearest {
            Some(nearest) => write!(f, "; is it `{nearest}`?"),
            None => Ok(()),
        }
    }
}

/// The items that are cited and aren't there, in the order of their cites. Only as many are
/// compared with all ids as is done soon.
///
/// # Errors
///
/// Where memory is refused.
pub fn unknown_items<I: KnownItems>(
    alloc: Global,
    citations: &[Citation],
    items: &I,
) -> Result<Vec<UnknownItem>, AllocError> {
    let most_guesses = MOST_COMPARED / items.references().len().max(1);
    let mut unknown = Vec::new(alloc);
    for (number, citation) in citations.iter().enumerate() {
        for (place, cite) in citation.cites.iter().enumerate() {
            let id = cite.id.as_str();
            if !items.has(id) {
                let is_compared = unknown.len() < most_guesses;
                unknown.push(UnknownItem {
                    citation: number,
                    cite: place,
                    id: cite.id.clone()?,
                    nearest: if is_compared {
                        nearest_id(alloc, items, id)?
                    } else {
                        None
                    },
                })?;
            }
        }
    }
    Ok(unknown)
}

/// The id that differs in case alone, or else the nearest.
fn nearest_id<I: KnownItems>(
    alloc: Global,
    items: &I,
    id: &str,
) -> Result<Option<String>, AllocError> {
    let mut nearest = Nearest::new(alloc, id);
    for reference in items.references().as_slice() {
        let other = reference.id.as_str();
        if items.has(other) {
            if other.eq_ignore_ascii_case(id) {
                return Ok(Some(String::from_str(alloc, other)?));
            }
            nearest.consider(other)?;
        }
    }
    match nearest.word() {
        Some(word) => Ok(Some(String::from_str(alloc, word)?)),
        None => Ok(None),
    }
}

/// The citations of a draft, whose cites of items that aren't there are missing ones. These stand
/// before the cite that followed them; or behind all others, where `sorts` says that the style sorts
/// cites, and the citation doesn't keep its order.
///
/// # Errors
///
/// Where memory is refused.
pub fn with_missing<I: KnownItems>(
    alloc: Global,
    citations: &[Citation],
    items: &I,
    sorts: bool,
) -> Result<Vec<Citation>, AllocError> {
    let mut drafted = Vec::new(alloc);
    for citation in citations {
        let is_sorted = sorts && !citation.keeps_order();
        drafted.push(drafted_citation(alloc, citation, items, is_sorted)?)?;
    }
    Ok(drafted)
}

fn drafted_citation<I: KnownItems>(
    alloc: Global,
    citation: &Citation,
    items: &I,
    is_sorted: bool,
) -> Result<Citation, AllocError> {
    let mut cites = Vec::new(alloc);
    let mut missing = Vec::new(alloc);
    for cite in &citation.cites {
        if !items.has(cite.id.as_str()) {
            missing.push(missing_cite(cite)?)?;
        } else if is_sorted {
            cites.push(copied(cite, Vec::new(alloc))?)?;
        } else {
            let missing_before = replace(&mut missing, Vec::new(alloc));
            cites.push(copied(cite, missing_before)?)?;
        }
    }
    Ok(Citation {
        cites,
        missing_behind: missing,
        note: citation.note,
        is_alone: citation.is_alone,
        is_unsorted: citation.keeps_order(),
    })
}

/// A copy of a cite, with these before it.
fn copied(cite: &Cite, missing_before: Vec<MissingCite>) -> Result<Cite, AllocError> {
    let locator = match &cite.locator {
        Some(locator) => Some(CiteLocator {
            kind: locator.kind,
            text: locator.text.clone()?,
        }),
        None => None,
    };
    Ok(Cite {
        id: cite.id.clone()?,
        place: cite.place,
        locator,
        prefix: cite.prefix.clone()?,
        suffix: cite.suffix.clone()?,
        suppresses_author: cite.suppresses_author,
        is_author_only: cite.is_author_only,
        is_hidden: cite.is_hidden,
        missing_before,
    })
}

fn missing_cite(cite: &Cite) -> Result<MissingCite, AllocError> {
    Ok(MissingCite {
        id: cite.id.clone()?,
        prefix: cite.prefix.clone()?,
        suffix: cite.suffix.clone()?,
        is_author_only: cite.is_author_only,
        is_hidden: cite.is_hidden,
    })
}

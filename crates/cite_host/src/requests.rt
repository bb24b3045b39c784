//! What the driver is asked.
use cite_tasks::cites::Cite;
use cite_tasks::entries::Items;
use cite_tasks::sorting::SortedCitation;
use cite_walk::cite::CiteLocator;
use csl_base::entry::PlainEntry;
use csl_base::style::IndependentStyle;
use csl_base::taxonomy::Locator;
use csl_driver::driver::BibliographyDriver;
use csl_driver::item::CitationItem;
use csl_driver::locator::{LocatorPayload, SpecificLocator};
use csl_driver::purpose::CitePurpose;
use csl_driver::request::{BibliographyRequest, CitationRequest, Order};
use std::alloc::{AllocError, Global};
use std::collections::BTreeMap;
use std::convert::Infallible;

/// The driver of a host's documents.
pub(crate) type Driver<'e> = BibliographyDriver<'e, PlainEntry, Infallible>;

/// The locators of the cites of each citation, as the driver compares them: by numbers, and equal
/// ones have one.
pub(crate) type DrivenLocators = Vec<Vec<Option<String>>>;

/// The locators of these citations.
pub(crate) fn locators_of(
    alloc: Global,
    citations: &[SortedCitation<'_>],
) -> Result<DrivenLocators, AllocError> {
    let mut numbers = BTreeMap::new(alloc);
    let mut all = Vec::new(alloc);
    for citation in citations {
        let mut locators = Vec::new(alloc);
        for cite in &citation.cites {
            let locator = match &cite.locator {
                Some(locator) => Some(numbered(alloc, &mut numbers, locator)?),
                None => None,
            };
            locators.push(locator)?;
        }
        all.push(locators)?;
    }
    Ok(all)
}

/// The number of a locator, by its kind and its text.
fn numbered(
    alloc: Global,
    numbers: &mut BTreeMap<String, usize>,
    locator: &CiteLocator,
) -> Result<String, AllocError> {
    let mut named = String::from_str(alloc, locator.kind.name())?;
    named.push(' ')?;
    named.push_str(locator.text.plain(alloc)?.as_str())?;
    let next = numbers.len();
    let number = *numbers.entry(named)?.or_insert(next);
    format!(in alloc; "{number}")
}

/// A driver that has taken the citations.
pub(crate) fn filled_driver<'e>(
    alloc: Global,
    style: &'e IndependentStyle,
    items: &'e Items<'_>,
    citations: &[SortedCitation<'_>],
    locators: &'e DrivenLocators,
) -> Result<Driver<'e>, AllocError> {
    let mut driver = BibliographyDriver::new(alloc);
    for (citation, locators) in citations.iter().zip(locators) {
        let cites = cites_of(alloc, items, citation, locators)?;
        let request = CitationRequest::new(cites, style, None, &[], Some(citation.note));
        if driver.citation(request).is_err() {
            return Err(AllocError);
        }
    }
    Ok(driver)
}

/// The cites of a citation.
fn cites_of<'e>(
    alloc: Global,
    items: &'e Items<'_>,
    citation: &SortedCitation<'_>,
    locators: &'e [Option<String>],
) -> Result<Vec<CitationItem<'e, PlainEntry, Infallible>>, AllocError> {
    let mut cites = Vec::new(alloc);
    for (cite, locator) in citation.cites.iter().zip(locators) {
        let place = items.place(cite.id.as_str()).unwrap_or(0);
        if let Some(entry) = items.entries.get(place) {
            cites.push(item_of(*cite, entry, locator))?;
        }
    }
    Ok(cites)
}

/// A request for a bibliography in the order of these entries.
pub(crate) fn bibliography_request<'o, 'e>(
    style: &'o IndependentStyle,
    order: &'o [&'e PlainEntry],
) -> BibliographyRequest<'o, 'e, PlainEntry> {
    BibliographyRequest::ordered(style, None, &[], order_of(order))
}

fn order_of<'o, 'e>(entries: &'o [&'e PlainEntry]) -> Option<Order<'o, 'e, PlainEntry>> {
    Some(Order(entries))
}

fn item_of<'e>(
    cite: &Cite,
    entry: &'e PlainEntry,
    locator: &'e Option<String>,
) -> CitationItem<'e, PlainEntry, Infallible> {
    let locator = match locator {
        Some(number) => {
            let payload = LocatorPayload::Str(number.as_str());
            Some(SpecificLocator(Locator::Custom, payload))
        }
        None => None,
    };
    let purpose = if cite.is_author_only {
        Some(CitePurpose::Author)
    } else {
        None
    };
    let item = CitationItem::new(entry, locator, None, cite.is_hidden, purpose);
    match cite.apart() {
        Some(apart) => item.apart(apart),
        None => item,
    }
}

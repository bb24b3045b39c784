//! The cites of requests, as they are arranged.
ghost use Rattle.std.specs.Prelude.{◌≡◌, IfOk, List, map, option_map};
ghost use Rattle.mentions_arranging.specs.Requests.{request_view as arranged_view, requests_view as all_arranged_view};
ghost use Rattle.driver_entries.specs.Entries.{distinct};
ghost use Rattle.driver_entries.specs.Listed.{IsListingOf};
ghost use Rattle.driver_entries.specs.ListingView.{listing_view};
ghost use Rattle.driver_entries.specs.Table.{table_of};
ghost use Rattle.driver_entries.specs.TableView.{table_view};
ghost use Rattle.driver_lookup.specs.PropertiesView.{locator_view};
ghost use Rattle.driver_passes.specs.Request.{cited};
ghost use Rattle.driver_passes.specs.RequestView.{cite_view, cites_view, request_view, requests_view};
ghost use Rattle.value_styles.specs.StyleView.{citation_view};
ghost use Rattle.mentions_cites.specs.ByPlaces.{plain_cites_at, plain_request_at, plain_requests_at};
ghost use Rattle.mentions_cites.specs.Requests.{
  cite_style,
  has_purpose,
  located,
  located_request,
  plain_cite,
  plain_requests,
  request_facts,
};

use crate::mentions::{ToldMention, entry_suffix, mention_of};
use csl_base::entry::EntryLike;
use csl_base::style::Citation;
use driver_entries::listing::Listing;
use driver_entries::table::EntryTable;
use driver_lookup::locator::SpecificLocator;
use driver_passes::item::CitationItem;
use driver_passes::request::CitationRequest;
use mentions_arranging::request::{CiteRequest, CiteStyle, RequestFacts, RequestedCite};
use mentions_notes::notes::CiteNotes;
use std::alloc::{AllocError, Global};

/// A cite as it is arranged, with the locator that its caller gave it.
pub type LocatedCite<'r, 'a, P> = RequestedCite<&'r SpecificLocator<'a, P>>;

fn locator_of<'r, 'a, T, P>(item: &'r CitationItem<'a, T, P>) -> Option<&'r SpecificLocator<'a, P>>
    ensures { option_map (λ l. locator_view l.now) result ≡ (cite_view item.now).locator }
{
    match &item.locator {
        Some(locator) => Some(locator),
        None => None,
    }
}

fn cite_style(citation: &Citation) -> CiteStyle
    ensures { result ≡ cite_style (citation_view citation.now) }
{
    CiteStyle {
        has_group_delimiter: citation.cite_group_delimiter.is_some(),
        collapse: citation.collapse,
        has_after_collapse_delimiter: citation.after_collapse_delimiter.is_some(),
    }
}

/// Whether some cite has a purpose.
fn has_purpose<T, P>(items: &[CitationItem<'_, T, P>]) -> bool
    ensures { result ≡ has_purpose (cites_view items.now) }
{
    for item in items {
        if item.purpose.is_some() {
            return true;
        }
    }
    false
}

fn request_facts<T, P>(request: &CitationRequest<'_, T, P>) -> RequestFacts
    ensures { result ≡ request_facts (request_view request.now) }
{
    RequestFacts {
        style: cite_style(&request.style().citation),
        note: request.note_number(),
        has_purpose: has_purpose(&request.items),
    }
}

/// A cite of the entry at an index, with what is known of it by those before it.
fn plain_cite<'r, 'a, T, P>(
    item: &'r CitationItem<'a, T, P>,
    entry: usize,
    notes: CiteNotes,
    mentions: &[ToldMention],
    suffixes: &[Option<usize>],
) -> LocatedCite<'r, 'a, P>
    ensures { located result
        ≡ plain_cite mentions.now suffixes.now entry (cite_view item.now) notes }
{
    let mention = mention_of(mentions, entry, notes.is_first);
    RequestedCite {
        entry,
        is_first: notes.is_first,
        locator: locator_of(item),
        hidden: item.hidden,
        apart: item.apart,
        key: mention.shown.names,
        shown: mention.shown,
        suffix: entry_suffix(mentions, suffixes, entry),
    }
}

/// The cites of a request, whose entries are at these places.
fn plain_cites<'r, 'a, T, P>(
    alloc: Global,
    items: &'r [CitationItem<'a, T, P>],
    places: &[usize],
    listing: &Listing,
    notes: &[CiteNotes],
    mentions: &[ToldMention],
    suffixes: &[Option<usize>],
) -> Result<Vec<LocatedCite<'r, 'a, P>>, AllocError>
    ensures { IfOk result (λ v. map located v.items
        ≡ plain_cites_at mentions.now suffixes.now (listing_view listing.now)
        (cites_view items.now) places.now notes.now) }
{
    let count = items.len().min(places.len()).min(notes.len());
    let mut cites = Vec::with_capacity(alloc, count)?;
    for k in 0..count {
        let entry = listing.number_of(places[k]);
        cites.push(plain_cite(&items[k], entry, notes[k], mentions, suffixes))?;
    }
    Ok(cites)
}

fn plain_request<'r, 'a, T, P>(
    alloc: Global,
    request: &'r CitationRequest<'a, T, P>,
    places: &[usize],
    listing: &Listing,
    notes: &[CiteNotes],
    mentions: &[ToldMention],
    suffixes: &[Option<usize>],
) -> Result<CiteRequest<LocatedCite<'r, 'a, P>>, AllocError>
    ensures { IfOk result (λ r. located_request (arranged_view r)
        ≡ plain_request_at mentions.now suffixes.now (listing_view listing.now)
        (request_view request.now) places.now notes.now) }
{
    let items = request.items.as_slice();
    let cites = plain_cites(alloc, items, places, listing, notes, mentions, suffixes)?;
    Ok(CiteRequest {
        facts: request_facts(request),
        cites,
    })
}

/// All requests, whose entries are at these places.
fn requests_by_places<'r, 'a, T, P>(
    alloc: Global,
    requests: &'r [CitationRequest<'a, T, P>],
    places: &[Vec<usize>],
    listing: &Listing,
    notes: &[Vec<CiteNotes>],
    mentions: &[ToldMention],
    suffixes: &[Option<usize>],
) -> Result<Vec<CiteRequest<LocatedCite<'r, 'a, P>>>, AllocError>
    ensures { IfOk result (λ v. map located_request (all_arranged_view v.items)
        ≡ plain_requests_at mentions.now suffixes.now (listing_view listing.now)
        (requests_view requests.now) (map (λ p. p.items) places.now)
        (map (λ n. n.items) notes.now)) }
{
    let count = requests.len().min(places.len()).min(notes.len());
    let mut found = Vec::with_capacity(alloc, count)?;
    for k in 0..count {
        found.push(plain_request(
            alloc,
            &requests[k],
            &places[k],
            listing,
            &notes[k],
            mentions,
            suffixes,
        )?)?;
    }
    Ok(found)
}

/// The cites of all requests as they are arranged, in the order in which they were handed in. The
/// table is that of the requests, and the listing names its entries, as that of a bibliography
/// does; the notes are those of all cites, by request. What a cite's mention shows is known of the
/// mentions, and the suffixes are those of the entries. The locators are lent by the requests.
///
/// # Errors
///
/// Where memory is refused.
pub fn plain_requests<'r, 'a, T: EntryLike, P>(
    alloc: Global,
    requests: &'r [CitationRequest<'a, T, P>],
    table: &EntryTable<'a, T>,
    listing: &Listing,
    notes: &[Vec<CiteNotes>],
    mentions: &[ToldMention],
    suffixes: &[Option<usize>],
) -> Result<Vec<CiteRequest<LocatedCite<'r, 'a, P>>>, AllocError>
    requires { table_view table.now ≡ table_of T.eq (requests_view requests.now) }
    ensures { IfOk result (λ v. (listed : List T)
        → IsListingOf T.eq (distinct T.eq (cited (requests_view requests.now))) listed
        (listing_view listing.now)
        → map located_request (all_arranged_view v.items)
        ≡ plain_requests mentions.now suffixes.now T.eq listed (requests_view requests.now)
        (map (λ n. n.items) notes.now)) }
{
    requests_by_places(
        alloc,
        requests,
        table.places(),
        listing,
        notes,
        mentions,
        suffixes,
    )
}

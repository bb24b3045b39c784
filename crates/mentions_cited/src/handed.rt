//! What is known of each cite by those before it, in the order in which they are handed in.
ghost use Rattle.std.specs.Prelude.{◌≡◌, ◌++◌, ◌&&◌, ◌||◌, ℕ, IfOk, List, OnOk, length, map, nat_eq, not};
ghost use Rattle.std.specs.List.{list_any, zip};
ghost use Rattle.driver_entries.specs.Entries.{distinct};
ghost use Rattle.driver_entries.specs.Listed.{IsListingOf};
ghost use Rattle.driver_entries.specs.ListingView.{listing_view};
ghost use Rattle.driver_entries.specs.Table.{table_of};
ghost use Rattle.driver_entries.specs.TableView.{table_view};
ghost use Rattle.driver_passes.specs.Request.{cited, cites_of};
ghost use Rattle.driver_passes.specs.RequestView.{request_view, requests_view};
ghost use Rattle.mentions_cited.specs.Handed.{cite_counts, is_cited_again, is_later, notes_of_cites, parts};
ghost use Rattle.mentions_cited.specs.Steps.{handed_at, handed_by};

use csl_base::entry::EntryLike;
use driver_entries::listing::Listing;
use driver_entries::table::EntryTable;
use driver_passes::request::CitationRequest;
use indexmap::IndexSet;
use mentions_notes::notes::{CiteNotes, HandedCite, notes_of};
use std::alloc::{AllocError, Global};

/// Adds the cites of a request, whose entries are at these places of a table.
fn push_handed<T, P>(
    cites: &mut Vec<HandedCite>,
    request: &CitationRequest<'_, T, P>,
    places: &[usize],
    listing: &Listing,
) -> Result<(), AllocError>
    ensures { OnOk result (cites.new.items ≡ cites.old.items
        ++ map (handed_at (listing_view listing.now) (request_view request.now)) places.now) }
{
    let note = request.note_number();
    let near_note_distance = request.style().citation.near_note_distance;
    for place in places {
        cites.push(HandedCite {
            entry: listing.number_of(*place),
            note,
            near_note_distance,
        })?;
    }
    Ok(())
}

/// The cites of all requests, whose entries are named by their numbers in the listing.
fn handed_cites<'a, T: EntryLike, P>(
    alloc: Global,
    requests: &[CitationRequest<'a, T, P>],
    table: &EntryTable<'a, T>,
    listing: &Listing,
) -> Result<Vec<HandedCite>, AllocError>
    requires { table_view table.now ≡ table_of T.eq (requests_view requests.now) }
    ensures { IfOk result (λ v. v.items
        ≡ handed_by T.eq (table_view table.now).entries (listing_view listing.now)
        (requests_view requests.now)) }
{
    let places = table.places();
    let mut cites = Vec::new(alloc);
    for (k, request) in requests.iter().enumerate() {
        push_handed(&mut cites, request, &places[k], listing)?;
    }
    Ok(cites)
}

/// Adds an entry, if a cite of it isn't the first one.
fn add_if_again(again: &mut IndexSet<usize>, entry: usize, is_first: bool) -> Result<(), AllocError>
    ensures { OnOk result ((n : ℕ) → list_any (nat_eq n) again.new.keys
        ≡ (list_any (nat_eq n) again.old.keys || (nat_eq n entry && not is_first))) }
{
    if !is_first {
        again.insert(entry)?;
    }
    Ok(())
}

/// The entries of those of these cites that aren't the first ones.
fn again_among(
    alloc: Global,
    cites: &[HandedCite],
    notes: &[CiteNotes],
) -> Result<IndexSet<usize>, AllocError>
    requires { length notes.now ≡ length cites.now }
    ensures { IfOk result (λ s. (n : ℕ) → list_any (nat_eq n) s.keys
        ≡ list_any (is_later n) (zip cites.now notes.now)) }
{
    let mut again = IndexSet::new(alloc);
    for k in 0..cites.len() {
        add_if_again(&mut again, cites[k].entry, notes[k].is_first)?;
    }
    Ok(again)
}

/// The entries that are cited again, by their indices in the listing. The table is that of the
/// requests, and the listing names its entries, as that of a bibliography does.
///
/// # Errors
///
/// Where memory is refused.
pub fn cited_again<'a, T: EntryLike, P>(
    alloc: Global,
    requests: &[CitationRequest<'a, T, P>],
    table: &EntryTable<'a, T>,
    listing: &Listing,
) -> Result<IndexSet<usize>, AllocError>
    requires { table_view table.now ≡ table_of T.eq (requests_view requests.now) }
    ensures { IfOk result (λ s. (listed : List T)
        → IsListingOf T.eq (distinct T.eq (cited (requests_view requests.now))) listed
        (listing_view listing.now)
        → (n : ℕ) → list_any (nat_eq n) s.keys
        ≡ is_cited_again T.eq listed (requests_view requests.now) n) }
{
    let cites = handed_cites(alloc, requests, table, listing)?;
    let notes = notes_of(alloc, &cites)?;
    again_among(alloc, &cites, &notes)
}

/// The notes of all cites, cut into those of each request.
fn by_request<T, P>(
    alloc: Global,
    requests: &[CitationRequest<'_, T, P>],
    notes: &[CiteNotes],
) -> Result<Vec<Vec<CiteNotes>>, AllocError>
    requires { length notes.now ≡ length (cites_of (requests_view requests.now)) }
    ensures { IfOk result (λ v. map (λ n. n.items) v.items
        ≡ parts (cite_counts (requests_view requests.now)) notes.now) }
{
    let mut rest = notes;
    let mut parts = Vec::with_capacity(alloc, requests.len())?;
    for request in requests {
        let (own, behind) = rest.split_at(request.items.len());
        parts.push(own.to_vec(alloc)?)?;
        rest = behind;
    }
    Ok(parts)
}

/// What is known of each cite by those before it, by request and by place in it. The table is that
/// of the requests, and the listing names its entries, as that of a bibliography does.
///
/// # Errors
///
/// Where memory is refused.
pub fn notes_of_cites<'a, T: EntryLike, P>(
    alloc: Global,
    requests: &[CitationRequest<'a, T, P>],
    table: &EntryTable<'a, T>,
    listing: &Listing,
) -> Result<Vec<Vec<CiteNotes>>, AllocError>
    requires { table_view table.now ≡ table_of T.eq (requests_view requests.now) }
    ensures notes { IfOk result (λ v. (listed : List T)
        → IsListingOf T.eq (distinct T.eq (cited (requests_view requests.now))) listed
        (listing_view listing.now)
        → map (λ n. n.items) v.items
        ≡ notes_of_cites T.eq listed (requests_view requests.now)) }
    ensures counts { IfOk result (λ v. map (λ n. length n.items) v.items
        ≡ cite_counts (requests_view requests.now)) }
{
    let cites = handed_cites(alloc, requests, table, listing)?;
    let notes = notes_of(alloc, &cites)?;
    by_request(alloc, requests, &notes)
}

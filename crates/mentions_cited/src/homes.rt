//! Where the entries that requests cite are cited first.
ghost use Rattle.std.specs.Prelude.{
  ◌≡◌,
  ◌∷◌,
  ◌++◌,
  [],
  IfOk,
  List,
  OnOk,
  filter,
  filter_map,
  length,
  map,
  slice_get,
};
ghost use Rattle.driver_entries.specs.Entries.{distinct};
ghost use Rattle.driver_entries.specs.Listed.{IsListingOf};
ghost use Rattle.driver_entries.specs.ListingView.{listing_view};
ghost use Rattle.driver_passes.specs.Request.{cited};
ghost use Rattle.driver_passes.specs.RequestView.{request_view, requests_view};
ghost use Rattle.mentions_cited.specs.Handed.{cite_counts, notes_of_cites};
ghost use Rattle.mentions_cited.specs.Homes.{homes_of, standing_cites, standing_in};
ghost use Rattle.mentions_cited.specs.HomeView.{home_view, homes_view};
ghost use Rattle.mentions_cited.specs.Steps.{is_first_cite};

use crate::home::Home;
use csl_base::entry::EntryLike;
use driver_entries::listing::Listing;
use driver_passes::acyclic::{AcyclicRequest, AcyclicRequests};
use mentions_notes::notes::CiteNotes;
use std::alloc::{AllocError, Global};

/// Adds a cite, if no cite before it cites its entry.
fn push_if_first<'r, 'a, T, P>(
    firsts: &mut Vec<Home<'r, 'a, T, P>>,
    cite: Home<'r, 'a, T, P>,
) -> Result<(), AllocError>
    ensures { OnOk result (homes_view firsts.new.items
        ≡ homes_view firsts.old.items ++ filter is_first_cite (home_view cite.entry ∷ [])) }
{
    if cite.notes.is_first {
        firsts.push(cite)?;
    }
    Ok(())
}

/// Adds those cites of a request that no cite before cites the entry of.
fn push_first_cites<'r, 'a, T, P>(
    firsts: &mut Vec<Home<'r, 'a, T, P>>,
    request: AcyclicRequest<'r, 'a, T, P>,
    notes: &[CiteNotes],
) -> Result<(), AllocError>
    requires { length notes.now ≡ length (request_view request.request.now).cites }
    ensures { OnOk result (homes_view firsts.new.items ≡ homes_view firsts.old.items
        ++ filter is_first_cite
        (standing_in (request_view request.entry.request.now) notes.now)) }
{
    for (place, item) in request.request.items.iter().enumerate() {
        let cite = Home {
            request,
            place,
            entry: item.entry,
            notes: notes[place],
        };
        push_if_first(firsts, cite)?;
    }
    Ok(())
}

/// The first cites of all entries, in their order.
fn first_cites<'r, 'a, T, P>(
    alloc: Global,
    requests: AcyclicRequests<'r, 'a, T, P>,
    notes: &[Vec<CiteNotes>],
) -> Result<Vec<Home<'r, 'a, T, P>>, AllocError>
    requires { map (λ n. length n.items) notes.now
        ≡ cite_counts (requests_view requests.requests.now) }
    ensures { IfOk result (λ v. homes_view v.items
        ≡ filter is_first_cite (standing_cites (requests_view requests.entry.requests.now)
        (map (λ n. n.items) notes.now))) }
{
    let mut firsts = Vec::new(alloc);
    for k in 0..requests.requests.len() {
        push_first_cites(&mut firsts, requests.at(k), &notes[k])?;
    }
    Ok(firsts)
}

/// Adds the one of these homes that stands at a place, if there is one.
fn push_at<'r, 'a, T, P>(
    homes: &mut Vec<Home<'r, 'a, T, P>>,
    firsts: &[Home<'r, 'a, T, P>],
    place: usize,
) -> Result<(), AllocError>
    ensures { OnOk result (homes_view homes.new.items ≡ homes_view homes.old.items
        ++ filter_map (slice_get (homes_view firsts.now)) (place ∷ [])) }
{
    if let Some(home) = firsts.get(place) {
        homes.push(*home)?;
    }
    Ok(())
}

/// Those of these homes that stand at some places, in the order of the places.
fn at_places<'r, 'a, T, P>(
    alloc: Global,
    firsts: &[Home<'r, 'a, T, P>],
    places: &[usize],
) -> Result<Vec<Home<'r, 'a, T, P>>, AllocError>
    ensures { IfOk result (λ v. homes_view v.items
        ≡ filter_map (slice_get (homes_view firsts.now)) places.now) }
{
    let mut homes = Vec::with_capacity(alloc, places.len())?;
    for place in places {
        push_at(&mut homes, firsts, *place)?;
    }
    Ok(homes)
}

/// The home of each entry of a listing, in its order. The listing is one of the entries that the
/// requests cite, and the notes are those of their cites by it.
///
/// # Errors
///
/// Where memory is refused.
pub fn homes<'r, 'a, T: EntryLike, P>(
    alloc: Global,
    requests: AcyclicRequests<'r, 'a, T, P>,
    listing: &Listing,
    notes: &[Vec<CiteNotes>],
) -> Result<Vec<Home<'r, 'a, T, P>>, AllocError>
    requires { map (λ n. length n.items) notes.now
        ≡ cite_counts (requests_view requests.requests.now) }
    ensures homes { IfOk result (λ v. (listed : List T)
        → IsListingOf T.eq (distinct T.eq (cited (requests_view requests.entry.requests.now)))
        listed (listing_view listing.now)
        → map (λ n. n.items) notes.now
        ≡ notes_of_cites T.eq listed (requests_view requests.entry.requests.now)
        → homes_view v.items ≡ homes_of T.eq listed (requests_view requests.entry.requests.now)) }
    ensures each { IfOk result (λ v. (listed : List T)
        → IsListingOf T.eq (distinct T.eq (cited (requests_view requests.entry.requests.now)))
        listed (listing_view listing.now)
        → map (λ n. n.items) notes.now
        ≡ notes_of_cites T.eq listed (requests_view requests.entry.requests.now)
        → length v.items ≡ length listed) }
{
    let firsts = first_cites(alloc, requests, notes)?;
    at_places(alloc, &firsts, listing.order())
}

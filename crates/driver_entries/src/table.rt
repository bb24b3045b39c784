//! The entries that requests cite, each once, in the order of their first cites.
ghost use Rattle.std.specs.Prelude.{◌≡◌, ◌<◌, ◌==◌, IfOk, OnOk, Some, length, map, slice_get};
ghost use Rattle.std.specs.List.{position};
ghost use Rattle.driver_entries.specs.Entries.{with_all_new, with_new};
ghost use Rattle.driver_entries.specs.StandsAt.{StandsAt};
ghost use Rattle.driver_entries.specs.Table.{places_in, table_of};
ghost use Rattle.driver_entries.specs.TableView.{table_view};
ghost use Rattle.driver_passes.specs.Request.{entries_of};
ghost use Rattle.driver_passes.specs.RequestView.{cites_view, entries_view, requests_view};

use csl_base::entry::EntryLike;
use driver_passes::item::CitationItem;
use driver_passes::request::CitationRequest;
use ordered_set::set::OrderedSet;
use std::alloc::{AllocError, Global};

/// The place of an entry, which is added where no equal one is there.
fn place_entry<'a, T: EntryLike>(
    entries: &mut OrderedSet<&'a T>,
    entry: &'a T,
) -> Result<usize, AllocError>
    ensures added { OnOk result (entries_view entries.new.keys
        ≡ with_new T.eq (entries_view entries.old.keys) entry.now) }
    ensures placed { IfOk result (StandsAt T.eq (entries_view entries.new.keys) entry.now) }
{
    let place = entries.insert(entry, entry)?;
    Ok(place)
}

/// The places of the entries of cites, which are added where no equal ones are there.
fn place_items<'a, T: EntryLike, P>(
    alloc: Global,
    entries: &mut OrderedSet<&'a T>,
    items: &[CitationItem<'a, T, P>],
) -> Result<Vec<usize>, AllocError>
    ensures added { OnOk result (entries_view entries.new.keys
        ≡ with_all_new T.eq (entries_view entries.old.keys) (entries_of (cites_view items.now))) }
    ensures placed { IfOk result (λ places. places.items
        ≡ places_in T.eq (entries_view entries.new.keys) (cites_view items.now)) }
{
    let mut places = Vec::with_capacity(alloc, items.len())?;
    for item in items {
        let place = place_entry(entries, item.entry)?;
        places.push(place)?;
    }
    Ok(places)
}

/// The distinct entries that requests cite, in the order of their first cites, and for each cite
/// the place of its entry among these.
#[derive(Drop)]
pub struct EntryTable<'a, T: EntryLike> {
    entries: OrderedSet<&'a T>,
    /// By request, and by place in it.
    places: Vec<Vec<usize>>,
}

impl<'a, T: EntryLike> EntryTable<'a, T> {
    /// The table of all that requests cite.
    pub fn of_requests<P>(
        alloc: Global,
        requests: &[CitationRequest<'a, T, P>],
    ) -> Result<EntryTable<'a, T>, AllocError>
        ensures { IfOk result
            (λ table. table_view table ≡ table_of T.eq (requests_view requests.now)) }
    {
        let mut entries = OrderedSet::new(alloc);
        let mut places = Vec::with_capacity(alloc, requests.len())?;
        for request in requests {
            let of_request = place_items(alloc, &mut entries, &request.items)?;
            places.push(of_request)?;
        }
        Ok(EntryTable { entries, places })
    }

    /// How many entries there are.
    pub fn len(&self) -> usize
        ensures { result ≡ length (table_view self.now).entries }
    {
        self.entries.len()
    }

    /// Whether there is no entry.
    pub fn is_empty(&self) -> bool
        ensures { result ≡ (length (table_view self.now).entries == 0) }
    {
        self.entries.is_empty()
    }

    /// The entry at a place.
    pub fn entry(&self, place: usize) -> &'a T
        requires within { place < length (table_view self.now).entries }
        ensures { slice_get (table_view self.now).entries place ≡ Some result.now }
    {
        self.entries.as_slice()[place]
    }

    /// The place of an entry that is equal to this one, if there is one.
    pub fn index_of(&self, entry: &'a T) -> Option<usize>
        ensures { result ≡ position (T.eq entry.now) (table_view self.now).entries }
    {
        self.entries.index_of(&entry)
    }

    /// By request, and by place in it, the places of the entries of the cites.
    pub fn places(&self) -> &[Vec<usize>]
        ensures { map (λ places. places.items) result.now ≡ (table_view self.now).places }
    {
        &self.places
    }
}

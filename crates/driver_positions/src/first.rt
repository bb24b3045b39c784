//! The properties of cites before anything is rendered (CSL 1.0.2, position and
//! near-note-distance).
ghost use Rattle.std.specs.Prelude.{
  ◌≡◌,
  ◌<◌,
  ◌≤◌,
  ◌++◌,
  [],
  ◌∷◌,
  IfOk,
  OnOk,
  length,
  map,
  option_map,
};
ghost use Rattle.std.specs.List.{last_or};
ghost use Rattle.std.specs.Option.{ForSome};
ghost use Rattle.driver_entries.specs.Table.{table_of};
ghost use Rattle.driver_entries.specs.TableView.{table_view};
ghost use Rattle.driver_passes.specs.Request.{cited, cites_of, entries_of};
ghost use Rattle.driver_passes.specs.RequestView.{cite_view, request_view, requests_view};
ghost use Rattle.driver_positions.specs.FirstProperties.{
  first_properties,
  numbered_by,
  request_properties,
};
ghost use Rattle.driver_positions.specs.Seen.{IsTableOf, certain_by, is_within, seen_of};

use csl_base::entry::EntryLike;
use driver_entries::table::EntryTable;
use driver_lookup::properties::CertainCiteProperties;
use driver_passes::first::FirstProperties;
use driver_passes::item::CitationItem;
use driver_passes::positions::with_last;
use driver_passes::request::CitationRequest;
use std::alloc::{AllocError, Global};

/// What is known of an entry from the cites before.
#[derive(Clone, Copy)]
pub(crate) struct Seen {
    /// Whether one of them cites it.
    pub(crate) cited: bool,
    /// The number of the first note that cites it.
    pub(crate) first_note: Option<usize>,
    /// Where the last request stands that cites it in a note.
    pub(crate) last_noted: Option<usize>,
}

/// Whether the last noted request stands at this distance before the place, or at a smaller one.
fn is_within(place: usize, distance: usize, last_noted: Option<usize>) -> bool
    requires { ForSome last_noted (λ k. k < place) }
    ensures { result ≡ is_within place distance last_noted }
{
    match last_noted {
        Some(last) => place - last <= distance,
        None => false,
    }
}

/// What is certain of the cite at an index of the request at this place.
fn certain_properties<T: EntryLike, P>(
    request: &CitationRequest<'_, T, P>,
    place: usize,
    seen: &Seen,
    index: usize,
) -> CertainCiteProperties
    requires { ForSome seen.now.last_noted (λ k. k < place) }
    ensures { result ≡ certain_by (request_view request.now) place seen.now index }
{
    let note_number = request.note_number();
    let distance = request.style().citation.near_note_distance;
    CertainCiteProperties {
        note_number,
        first_note_number: note_number.map(|number| seen.first_note.unwrap_or(number)),
        is_near_note: note_number.is_some() && is_within(place, distance, seen.last_noted),
        is_first: !seen.cited,
        initial_idx: index,
    }
}

/// The first properties of the cites of a request. Each cite sees those before it.
fn request_properties<'a, T: EntryLike, P: PartialEq>(
    alloc: Global,
    before: &[CitationRequest<'a, T, P>],
    request: &CitationRequest<'a, T, P>,
    table: &EntryTable<'a, T>,
    numbers: &[usize],
    last: Option<&CitationItem<'a, T, P>>,
    seen: &mut [Seen],
) -> Result<Vec<FirstProperties>, AllocError>
    requires table { IsTableOf T.eq (requests_view before.now) (request_view request.now)
        (table_view table.now) }
    requires numbered { length (table_view table.now).entries ≤ length numbers.now }
    requires last { option_map (λ l. cite_view l.now) last
        ≡ last_or None (cites_of (requests_view before.now)) }
    requires seen { seen.old ≡ map
        (seen_of T.eq (cited (requests_view before.now)) (requests_view before.now))
        (table_view table.now).entries }
    ensures properties { IfOk result (λ v. v.items
        ≡ request_properties T.eq P.eq (numbered_by T.eq numbers.now (table_view table.now).entries)
        (requests_view before.now) (request_view request.now)) }
    ensures seen { OnOk result (seen.new ≡ map (seen_of T.eq (cited (requests_view before.now)
        ++ entries_of (request_view request.now).cites) (requests_view before.now))
        (table_view table.now).entries) }
{
    let place = before.len();
    let places = &table.places()[place];
    let mut last = last;
    let mut properties = Vec::with_capacity(alloc, request.items.len())?;
    for (i, item) in request.items.iter().enumerate() {
        let entry = places[i];
        properties.push(FirstProperties {
            certain: certain_properties(request, place, &seen[entry], i),
            number: numbers[entry],
            ibid: with_last(item, last),
        })?;
        seen[entry].cited = true;
        last = Some(item);
    }
    Ok(properties)
}

/// Notes the entries that a request cites, where it has a note number.
fn note_entries<'a, T: EntryLike, P>(
    before: &[CitationRequest<'a, T, P>],
    request: &CitationRequest<'a, T, P>,
    table: &EntryTable<'a, T>,
    seen: &mut [Seen],
)
    requires table { IsTableOf T.eq (requests_view before.now) (request_view request.now)
        (table_view table.now) }
    requires seen { seen.old ≡ map
        (seen_of T.eq (cited (requests_view before.now)
        ++ entries_of (request_view request.now).cites)
        (requests_view before.now)) (table_view table.now).entries }
    ensures { seen.new ≡ map (seen_of T.eq (cited (requests_view before.now)
        ++ entries_of (request_view request.now).cites) (requests_view before.now
        ++ request_view request.now ∷ [])) (table_view table.now).entries }
{
    let place = before.len();
    let number = request.note_number();
    for entry in &table.places()[place] {
        let noted = &mut seen[*entry];
        noted.first_note = noted.first_note.or(number);
        noted.last_noted = number.and(Some(place)).or(noted.last_noted);
    }
}

/// What is known of each cite before anything is rendered, by request and by place in it (CSL
/// 1.0.2, position and near-note-distance). The table is that of the requests, and the numbers are
/// those of its entries, by their places. A hidden cite counts as all others do, but none behind it
/// repeats it. An error comes only where there is no memory.
pub fn first_properties<'a, T: EntryLike, P: PartialEq>(
    alloc: Global,
    requests: &[CitationRequest<'a, T, P>],
    table: &EntryTable<'a, T>,
    numbers: &[usize],
) -> Result<Vec<Vec<FirstProperties>>, AllocError>
    requires table { table_view table.now ≡ table_of T.eq (requests_view requests.now) }
    requires numbered { length (table_view table.now).entries ≤ length numbers.now }
    ensures { IfOk result (λ v. map (λ f. f.items) v.items
        ≡ first_properties T.eq P.eq (numbered_by T.eq numbers.now (table_view table.now).entries)
        (requests_view requests.now)) }
{
    let unseen = Seen {
        cited: false,
        first_note: None,
        last_noted: None,
    };
    let mut seen = vec![in alloc; unseen; table.len()]?;
    let mut last = None;
    let mut properties = Vec::with_capacity(alloc, requests.len())?;
    for (k, request) in requests.iter().enumerate() {
        let before = &requests[..k];
        properties.push(request_properties(
            alloc, before, request, table, numbers, last, &mut seen,
        )?)?;
        note_entries(before, request, table, &mut seen);
        last = request.items.last().or(last);
    }
    Ok(properties)
}

//! Which cites repeat the one before them (CSL 1.0.2, position: ibid and ibid-with-locator).
ghost use Rattle.std.specs.Prelude.{◌≡◌, ◌<◌, ◌&&◌, ◌||◌, ℕ, IfOk, List, OnOk, length, map, nat_eq, not};
ghost use Rattle.std.specs.HashMap.{get};
ghost use Rattle.std.specs.List.{list_any};
ghost use Rattle.std.specs.Option.{option_and_then, option_copied};
ghost use Rattle.mentions_notes.specs.Noted.{AreNotesOf, is_other, noted_with};
ghost use Rattle.mentions_notes.specs.Repeats.{before_at, is_note, may_be_repeated, only_repeatable, position_behind, position_by, positions, positions_behind, repeatable};
ghost use Rattle.mentions_notes.specs.Requests.{Request, request_view, requests_view};

use std::alloc::{AllocError, Global};
use std::collections::HashMap;

/// A cite, in the final order of its request. A hidden one counts as any other.
#[derive(Drop)]
pub struct PlacedCite<L> {
    /// The index of its entry.
    pub entry: usize,
    /// Its locator, if it has one.
    pub locator: Option<L>,
}

/// A request, with its cites in their final order.
#[derive(Drop)]
pub struct PlacedRequest<L> {
    /// The number of its note; none where it stands in none, or its style is of class in-text.
    pub note: Option<usize>,
    pub cites: Vec<PlacedCite<L>>,
}

/// How a cite stands to the one before it.
#[derive(Clone, Copy)]
pub enum Position {
    /// It doesn't repeat it.
    Different,
    /// It repeats it, and its locator too.
    Ibid,
    /// It repeats it, and has a locator of its own.
    IbidWithLocator,
}

/// The entries that a note cites.
#[derive(Clone, Copy)]
struct NoteEntries {
    /// One of them.
    entry: usize,
    /// Whether there is another.
    several: bool,
}

/// The positions of all cites, by request and by place in it. A cite may repeat the one directly
/// before it in its request; the first one of a request may repeat the cite of the request
/// directly before, where that has one cite alone and stands in no note, in the same note, or in
/// a note where no request cites another entry.
///
/// # Errors
///
/// Where memory is refused.
pub fn positions_of<L: PartialEq>(
    alloc: Global,
    requests: &[PlacedRequest<L>],
) -> Result<Vec<Vec<Position>>, AllocError>
    ensures { IfOk result (λ v. map (λ p. p.items) v.items
        ≡ positions L.eq (requests_view requests.now)) }
{
    let noted = entries_of_notes(alloc, requests)?;
    let mut found = Vec::with_capacity(alloc, requests.len())?;
    for (k, request) in requests.iter().enumerate() {
        let before = repeatable_before(&noted, requests, k, request.note);
        found.push(positions_behind(alloc, before, &request.cites)?)?;
    }
    Ok(found)
}

/// The entries of each note, by its number.
fn entries_of_notes<L>(
    alloc: Global,
    requests: &[PlacedRequest<L>],
) -> Result<HashMap<usize, NoteEntries>, AllocError>
    ensures { IfOk result (λ n. AreNotesOf n (requests_view requests.now)) }
{
    let mut noted = HashMap::new(alloc);
    for request in requests {
        note_request(&mut noted, request)?;
    }
    Ok(noted)
}

/// Adds the entries of a request to those of its note, if it stands in one.
fn note_request<L>(
    noted: &mut HashMap<usize, NoteEntries>,
    request: &PlacedRequest<L>,
) -> Result<(), AllocError>
    ensures { OnOk result ((n e : ℕ) → is_other e (get nat_eq noted.new n)
        ≡ (is_other e (get nat_eq noted.old n)
        || (is_note n request.now.note
        && list_any (λ c. not (nat_eq e c.entry)) request.now.cites.items))) }
{
    match request.note {
        Some(number) => {
            note_cites(noted, number, &request.cites)?;
            Ok(())
        }
        None => Ok(()),
    }
}

/// Adds the entries of cites to those of a note.
fn note_cites<L>(
    noted: &mut HashMap<usize, NoteEntries>,
    number: usize,
    cites: &[PlacedCite<L>],
) -> Result<(), AllocError>
    ensures { OnOk result ((n e : ℕ) → is_other e (get nat_eq noted.new n)
        ≡ (is_other e (get nat_eq noted.old n)
        || (nat_eq n number && list_any (λ c. not (nat_eq e c.entry)) cites.now))) }
{
    for cite in cites {
        note_entry(noted, number, cite.entry)?;
    }
    Ok(())
}

/// Adds an entry to those of a note.
fn note_entry(
    noted: &mut HashMap<usize, NoteEntries>,
    number: usize,
    entry: usize,
) -> Result<(), AllocError>
    ensures { OnOk result ((n e : ℕ) → is_other e (get nat_eq noted.new n)
        ≡ (is_other e (get nat_eq noted.old n) || (nat_eq n number && not (nat_eq e entry)))) }
{
    let entries = noted_with(noted, number, entry);
    noted.insert(number, entries)?;
    Ok(())
}

/// The entries of a note with one more.
fn noted_with(noted: &HashMap<usize, NoteEntries>, number: usize, entry: usize) -> NoteEntries
    ensures { result ≡ noted_with entry (get nat_eq noted.now number) }
{
    match noted.get(&number) {
        Some(entries) => NoteEntries {
            entry: entries.entry,
            several: entries.several || entries.entry != entry,
        },
        None => NoteEntries {
            entry,
            several: false,
        },
    }
}

/// The cite of the request directly before that the first one of the request at k may repeat,
/// where that stands in this note.
fn repeatable_before<'x, L>(
    noted: &HashMap<usize, NoteEntries>,
    requests: &'x [PlacedRequest<L>],
    k: usize,
    note: Option<usize>,
) -> Option<&'x PlacedCite<L>>
    requires within { k < length requests.now }
    requires noted { AreNotesOf noted.now (requests_view requests.now) }
    ensures { option_copied result
        ≡ option_and_then (λ r. repeatable (requests_view requests.now) note (request_view r))
        (before_at requests.now k) }
{
    if k == 0 {
        return None;
    }
    let before = &requests[k - 1];
    only_repeatable(noted, before.note, note, &before.cites)
}

/// The only one of a request's cites, if there is one alone, and the request behind may repeat it.
fn only_repeatable<'x, L>(
    noted: &HashMap<usize, NoteEntries>,
    from: Option<usize>,
    to: Option<usize>,
    cites: &'x [PlacedCite<L>],
) -> Option<&'x PlacedCite<L>>
    ensures { (requests : List (Request L)) → AreNotesOf noted.now requests
        → option_copied result ≡ only_repeatable requests from to cites.now }
{
    match cites {
        [only] if may_be_repeated(noted, from, to, only.entry) => Some(only),
        _ => None,
    }
}

/// Whether the one cite of a request in one note may be repeated by the request behind it, in
/// another note or the same.
fn may_be_repeated(
    noted: &HashMap<usize, NoteEntries>,
    from: Option<usize>,
    to: Option<usize>,
    entry: usize,
) -> bool
    ensures { result ≡ may_be_repeated (λ n e. is_other e (get nat_eq noted.now n)) from to entry }
{
    match from {
        Some(number) => is_note(number, to) || !cites_other(noted, number, entry),
        None => true,
    }
}

/// Whether a note has this number.
fn is_note(number: usize, note: Option<usize>) -> bool
    ensures { result ≡ is_note number note }
{
    match note {
        Some(note) => number == note,
        None => false,
    }
}

/// Whether another entry than this one is noted in a note.
fn cites_other(noted: &HashMap<usize, NoteEntries>, number: usize, entry: usize) -> bool
    ensures { result ≡ is_other entry (get nat_eq noted.now number) }
{
    match noted.get(&number) {
        Some(entries) => entries.several || entries.entry != entry,
        None => false,
    }
}

/// The positions of the cites of a request whose first one may repeat this one.
fn positions_behind<L: PartialEq>(
    alloc: Global,
    outside: Option<&PlacedCite<L>>,
    cites: &[PlacedCite<L>],
) -> Result<Vec<Position>, AllocError>
    ensures { IfOk result (λ v. v.items
        ≡ positions_behind L.eq (option_copied outside.entry) cites.now) }
{
    let mut last = outside;
    let mut positions = Vec::with_capacity(alloc, cites.len())?;
    for cite in cites {
        positions.push(position_behind(last, cite))?;
        last = Some(cite);
    }
    Ok(positions)
}

/// The position of a cite behind another, if there is one.
fn position_behind<L: PartialEq>(last: Option<&PlacedCite<L>>, cite: &PlacedCite<L>) -> Position
    ensures { result ≡ position_behind L.eq (option_copied last.entry) cite.now }
{
    match last {
        Some(last) if last.entry == cite.entry => position_by(&last.locator, &cite.locator),
        _ => Position::Different,
    }
}

/// The position of a cite that repeats another, by their locators.
fn position_by<L: PartialEq>(last: &Option<L>, locator: &Option<L>) -> Position
    ensures { result ≡ position_by L.eq last.now locator.now }
{
    match (last, locator) {
        (None, None) => Position::Ibid,
        (Some(last), Some(locator)) if *last == *locator => Position::Ibid,
        (_, Some(_)) => Position::IbidWithLocator,
        _ => Position::Different,
    }
}

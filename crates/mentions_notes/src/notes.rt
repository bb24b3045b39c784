//! First cites, first notes and near notes (CSL 1.0.2, position and near-note-distance).
ghost use Rattle.std.specs.Prelude.{◌≡◌, ℕ, IfOk, OnOk};
ghost use Rattle.mentions_notes.specs.Known.{grown, known_at, known_with, notes_by};
ghost use Rattle.mentions_notes.specs.Notes.{all_notes, is_near};

use std::alloc::{AllocError, Global};
use std::collections::HashMap;

/// A cite, in the order in which cites are handed in.
#[derive(Clone, Copy)]
pub struct HandedCite {
    /// The index of its entry.
    pub entry: usize,
    /// The number of its note; none where it stands in none, or its style is of class in-text.
    pub note: Option<usize>,
    /// How far away a note may be that counts as near, by its style.
    pub near_note_distance: usize,
}

/// What is known of a cite by the cites before it.
#[derive(Clone, Copy)]
pub struct CiteNotes {
    /// Whether no cite before it cites its entry.
    pub is_first: bool,
    /// The number of the first note that cites its entry; none where it stands in no note itself.
    pub first_note: Option<usize>,
    /// Whether the last note before that cites its entry is near.
    pub is_near: bool,
}

/// What is known of an entry by the cites that were looked at.
#[derive(Clone, Copy)]
struct Known {
    /// Whether one of them cites it.
    cited: bool,
    /// The number of the first note of theirs that cites it.
    first_note: Option<usize>,
    /// The number of the last one.
    last_note: Option<usize>,
}

/// What is known of each cite by those before it. Numbers of notes are compared, and not
/// requests: a note is near where its number is the cite's own or one below it, and at most as
/// far below as the style of the cite says.
///
/// # Errors
///
/// Where memory is refused.
pub fn notes_of(alloc: Global, cites: &[HandedCite]) -> Result<Vec<CiteNotes>, AllocError>
    ensures { IfOk result (λ v. v.items ≡ all_notes cites.now) }
{
    let mut known = HashMap::new(alloc);
    let mut notes = Vec::with_capacity(alloc, cites.len())?;
    for cite in cites {
        let before = known_at(&known, cite.entry);
        notes.push(notes_by(cite, before))?;
        note(&mut known, cite, before)?;
    }
    Ok(notes)
}

/// What is known of an entry.
fn known_at(known: &HashMap<usize, Known>, entry: usize) -> Known
    ensures { result ≡ known_at known.now entry }
{
    match known.get(&entry) {
        Some(known) => *known,
        None => Known {
            cited: false,
            first_note: None,
            last_note: None,
        },
    }
}

/// What is known of a cite, from what is known of its entry.
fn notes_by(cite: &HandedCite, known: Known) -> CiteNotes
    ensures { result ≡ notes_by cite.now known }
{
    CiteNotes {
        is_first: !known.cited,
        first_note: match cite.note {
            Some(note) => Some(known.first_note.unwrap_or(note)),
            None => None,
        },
        is_near: is_near(cite.near_note_distance, cite.note, known.last_note),
    }
}

/// Whether both stand in notes, and the second one's is at most so far before the first one's, or
/// the same.
fn is_near(distance: usize, note: Option<usize>, last: Option<usize>) -> bool
    ensures { result ≡ is_near distance note last }
{
    match (note, last) {
        (Some(note), Some(last)) => last <= note && note - last <= distance,
        _ => false,
    }
}

/// Notes that a cite cites its entry. `before` is what was known of the entry.
fn note(
    known: &mut HashMap<usize, Known>,
    cite: &HandedCite,
    before: Known,
) -> Result<(), AllocError>
    requires { before ≡ known_at known.old cite.now.entry }
    ensures { OnOk result ((e : ℕ) → known_at known.new e
        ≡ known_with cite.now e (known_at known.old e)) }
{
    known.insert(cite.entry, grown(cite, before))?;
    Ok(())
}

/// What is known of an entry once a cite of it was looked at.
fn grown(cite: &HandedCite, before: Known) -> Known
    ensures { result ≡ grown cite.now before }
{
    Known {
        cited: true,
        first_note: before.first_note.or(cite.note),
        last_note: cite.note.or(before.last_note),
    }
}

//! The notes in which citations stand.
use cite_tasks::cites::Citation;
use indexmap::IndexSet;
use std::alloc::{AllocError, Global};

/// Gives citations without a note one of their own, where others have one: the next after those of
/// the citations before that no citation has.
///
/// # Errors
///
/// Where memory is refused.
pub fn number_notes(alloc: Global, citations: &mut [Citation]) -> Result<(), AllocError> {
    let told = told_notes(alloc, citations)?;
    if told.is_empty() {
        return Ok(());
    }
    let mut last = 0usize;
    for citation in citations.iter_mut() {
        let note = match citation.note {
            Some(note) => note,
            None => own_note(&told, last),
        };
        citation.note = Some(note);
        last = last.max(note);
    }
    Ok(())
}

/// The notes that citations tell.
fn told_notes(alloc: Global, citations: &[Citation]) -> Result<IndexSet<usize>, AllocError> {
    let mut told = IndexSet::new(alloc);
    for citation in citations {
        if let Some(note) = citation.note {
            told.insert(note)?;
        }
    }
    Ok(told)
}

/// The first note after this one that no citation has. Where there is none, it is the greatest
/// number.
fn own_note(told: &IndexSet<usize>, last: usize) -> usize {
    let mut note = last.saturating_add(1);
    for _ in 0..told.len() {
        if note == usize::MAX || !told.contains(&note) {
            return note;
        }
        note = note.saturating_add(1);
    }
    note
}

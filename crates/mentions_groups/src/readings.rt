//! Which entries are mentioned alike within a class.
ghost use Rattle.std.specs.Prelude.{◌≡◌, ◌++◌, ◌∷◌, ◌&&◌, [], List, OnOk};
ghost use Rattle.std.specs.List.{list_any};
ghost use Rattle.mentions_groups.specs.Readings.{AreReadingsOf, entries_at, entries_with, is_other_at, joined, reading_by, reading_of};
ghost use Rattle.mentions_groups.specs.Suffixes.{is_mistaken_for};
ghost use Rattle.mentions_groups.specs.declared.mention.Mention.{Mention as MentionValue};

use crate::mention::Mention;
use std::alloc::AllocError;
use std::collections::BTreeMap;

/// What a mention reads as, and the class of its entry.
#[derive(Clone, Copy, PartialEq, Eq, PartialOrd, Ord)]
pub(crate) struct Reading {
    pub(crate) text: usize,
    pub(crate) class: usize,
}

/// The entries of the mentions with a reading: one of them, and whether there is another.
#[derive(Clone, Copy)]
pub(crate) struct Entries {
    pub(crate) entry: usize,
    pub(crate) several: bool,
}

/// The mentions that were looked at and occur, by what they read as.
pub(crate) type Readings = BTreeMap<Reading, Entries>;

/// The reading of a mention that has a text, where its entry has a class.
pub(crate) fn reading_by(text: Option<usize>, class: Option<usize>) -> Option<Reading>
    ensures { result ≡ reading_by text class }
{
    match (text, class) {
        (Some(text), Some(class)) => Some(Reading { text, class }),
        _ => None,
    }
}

/// The same entries and this one.
fn joined(entries: &Entries, entry: usize) -> Entries
    ensures { result ≡ joined entry entries.now }
{
    Entries {
        entry: entries.entry,
        several: entries.several || entries.entry != entry,
    }
}

/// The entries of a reading once a mention of this one was added.
fn entries_with(readings: &Readings, reading: &Reading, entry: usize) -> Entries
    ensures { result ≡ entries_with entry (entries_at readings.now reading.now) }
{
    match readings.get(reading) {
        Some(entries) => joined(entries, entry),
        None => Entries {
            entry,
            several: false,
        },
    }
}

/// Adds a mention with its reading, if it occurs and has one.
pub(crate) fn add(
    readings: &mut Readings,
    mention: &Mention,
    reading: Option<Reading>,
) -> Result<(), AllocError>
    ensures { OnOk result ((mentions before : List MentionValue)
        → reading ≡ reading_of mentions mention.now
        → AreReadingsOf mentions readings.old before
        → AreReadingsOf mentions readings.new (before ++ mention.now ∷ [])) }
{
    if !mention.occurs {
        return Ok(());
    }
    if let Some(reading) = reading {
        let entries = entries_with(readings, &reading, mention.entry);
        readings.insert(reading, entries)?;
    }
    Ok(())
}

/// Whether a mention of another entry has this reading.
fn is_other_at(readings: &Readings, reading: &Reading, entry: usize) -> bool
    ensures { result ≡ is_other_at entry (entries_at readings.now reading.now) }
{
    match readings.get(reading) {
        Some(entries) => entries.several || entries.entry != entry,
        None => false,
    }
}

/// Whether a mention with this reading reads like one of another entry of its class, and both
/// occur.
pub(crate) fn is_mistaken(readings: &Readings, mention: &Mention, reading: Option<Reading>) -> bool
    ensures { (mentions : List MentionValue) → reading ≡ reading_of mentions mention.now
        → AreReadingsOf mentions readings.now mentions → result
        ≡ (mention.now.occurs && list_any (is_mistaken_for mentions mention.now) mentions) }
{
    if !mention.occurs {
        return false;
    }
    match reading {
        Some(reading) => is_other_at(readings, &reading, mention.entry),
        None => false,
    }
}

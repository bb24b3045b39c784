//! Year suffixes (CSL 1.0.2, disambiguation, step 4): of entries that read alike in cites.
ghost use Rattle.std.specs.Prelude.{◌≡◌, ◌++◌, ◌∷◌, [], ◌&&◌, ◌||◌, ℕ, IfOk, List, OnOk, if◌then◌else◌, map, nat_eq, slice_get};
ghost use Rattle.std.specs.List.{list_any};
ghost use Rattle.std.specs.Option.{option_and_then};
ghost use Rattle.mentions_groups.specs.Groups.{text_of};
ghost use Rattle.mentions_groups.specs.Readings.{AreReadingsOf, reading_of};
ghost use Rattle.mentions_groups.specs.Suffixes.{entry_class, entry_classes, is_entry_asked, laters, suffixes};
ghost use Rattle.mentions_groups.specs.declared.mention.Mention.{Mention as MentionValue};

use crate::counted::{EntryClass, suffixes_by};
use crate::groups::texts_of;
use crate::mention::Mention;
use crate::readings::{Reading, Readings, add, is_mistaken, reading_by};
use indexmap::IndexSet;
use std::alloc::{AllocError, Global};
use std::collections::BTreeMap;

/// Adds what a mention reads as, if it is a later one.
fn push_class(
    classes: &mut Vec<Option<usize>>,
    mention: &Mention,
    text: Option<usize>,
) -> Result<(), AllocError>
    ensures { OnOk result (classes.new.items
        ≡ classes.old.items ++ (if mention.now.is_first then [] else text ∷ [])) }
{
    if mention.is_first {
        return Ok(());
    }
    classes.push(text)?;
    Ok(())
}

/// The classes of all entries: what their later mentions read as.
fn classes_of(
    alloc: Global,
    mentions: &[Mention],
    texts: &[Option<usize>],
) -> Result<Vec<Option<usize>>, AllocError>
    requires { texts.now ≡ map (text_of mentions.now) mentions.now }
    ensures { IfOk result (λ v. v.items ≡ map (text_of mentions.now) (laters mentions.now)) }
{
    let mut classes = Vec::new(alloc);
    for (k, mention) in mentions.iter().enumerate() {
        push_class(&mut classes, mention, texts[k])?;
    }
    Ok(classes)
}

/// The class of an entry.
fn class_at(classes: &[Option<usize>], entry: usize) -> Option<usize>
    ensures { result ≡ option_and_then (λ c. c) (slice_get classes.now entry) }
{
    match classes.get(entry) {
        Some(class) => *class,
        None => None,
    }
}

/// What mentions read as in their classes.
fn readings_of(
    alloc: Global,
    mentions: &[Mention],
    texts: &[Option<usize>],
    classes: &[Option<usize>],
) -> Result<Vec<Option<Reading>>, AllocError>
    requires texts { texts.now ≡ map (text_of mentions.now) mentions.now }
    requires classes { classes.now ≡ map (text_of mentions.now) (laters mentions.now) }
    ensures { IfOk result (λ v. v.items ≡ map (reading_of mentions.now) mentions.now) }
{
    let mut readings = Vec::with_capacity(alloc, mentions.len())?;
    for (k, mention) in mentions.iter().enumerate() {
        readings.push(reading_by(texts[k], class_at(classes, mention.entry)))?;
    }
    Ok(readings)
}

/// The mentions that occur, by these readings.
fn by_reading(
    alloc: Global,
    mentions: &[Mention],
    readings: &[Option<Reading>],
) -> Result<Readings, AllocError>
    requires { readings.now ≡ map (reading_of mentions.now) mentions.now }
    ensures { IfOk result (λ r. AreReadingsOf mentions.now r mentions.now) }
{
    let mut found = BTreeMap::new(alloc);
    for (k, mention) in mentions.iter().enumerate() {
        add(&mut found, mention, readings[k])?;
    }
    Ok(found)
}

/// Adds an entry, if it is asked to differ.
fn add_entry(asked: &mut IndexSet<usize>, is_asked: bool, entry: usize) -> Result<(), AllocError>
    ensures { OnOk result ((n : ℕ) → list_any (nat_eq n) asked.new.keys
        ≡ (list_any (nat_eq n) asked.old.keys || (nat_eq n entry && is_asked))) }
{
    if is_asked {
        asked.insert(entry)?;
    }
    Ok(())
}

/// The entries that are asked to differ: one of their mentions that occur reads like one of another
/// entry of their class that occurs.
fn asked_entries(
    alloc: Global,
    mentions: &[Mention],
    readings: &[Option<Reading>],
) -> Result<IndexSet<usize>, AllocError>
    requires { readings.now ≡ map (reading_of mentions.now) mentions.now }
    ensures { IfOk result (λ s. (n : ℕ) → list_any (nat_eq n) s.keys
        ≡ is_entry_asked mentions.now n) }
{
    let known = by_reading(alloc, mentions, readings)?;
    let mut asked = IndexSet::new(alloc);
    for (k, mention) in mentions.iter().enumerate() {
        let is_asked = is_mistaken(&known, mention, readings[k]);
        add_entry(&mut asked, is_asked, mention.entry)?;
    }
    Ok(asked)
}

/// What gives the entry of a later mention its suffix.
fn entry_class(classes: &[Option<usize>], asked: &IndexSet<usize>, later: &Mention) -> EntryClass
    ensures { (mentions : List MentionValue)
        → classes.now ≡ map (text_of mentions) (laters mentions)
        → ((n : ℕ) → list_any (nat_eq n) asked.now.keys ≡ is_entry_asked mentions n)
        → result ≡ entry_class mentions later.now }
{
    EntryClass {
        adds_suffix: later.adds_suffix,
        class: if asked.contains(&later.entry) {
            class_at(classes, later.entry)
        } else {
            None
        },
    }
}

/// Adds what gives the entry of a mention its suffix, if the mention is a later one.
fn push_entry(
    entries: &mut Vec<EntryClass>,
    mention: &Mention,
    entry: EntryClass,
) -> Result<(), AllocError>
    ensures { OnOk result (entries.new.items
        ≡ entries.old.items ++ (if mention.now.is_first then [] else entry ∷ [])) }
{
    if !mention.is_first {
        entries.push(entry)?;
    }
    Ok(())
}

/// What gives each entry its suffix.
fn entry_classes(
    alloc: Global,
    mentions: &[Mention],
    classes: &[Option<usize>],
    asked: &IndexSet<usize>,
) -> Result<Vec<EntryClass>, AllocError>
    requires classes { classes.now ≡ map (text_of mentions.now) (laters mentions.now) }
    requires asked { (n : ℕ) → list_any (nat_eq n) asked.now.keys
        ≡ is_entry_asked mentions.now n }
    ensures { IfOk result (λ v. v.items ≡ entry_classes mentions.now) }
{
    let mut entries = Vec::new(alloc);
    for mention in mentions {
        push_entry(&mut entries, mention, entry_class(classes, asked, mention))?;
    }
    Ok(entries)
}

/// The year suffixes of all entries, in the order of the bibliography, from their mentions. Of the
/// entries whose later mentions read alike those are counted that also read alike in cites: 0, 1
/// and so on, if the style of one of them adds suffixes.
///
/// # Errors
///
/// Where memory is refused.
pub fn suffixes_of(alloc: Global, mentions: &[Mention]) -> Result<Vec<Option<usize>>, AllocError>
    ensures { IfOk result (λ v. v.items ≡ suffixes mentions.now) }
{
    let texts = texts_of(alloc, mentions)?;
    let classes = classes_of(alloc, mentions, &texts)?;
    let readings = readings_of(alloc, mentions, &texts, &classes)?;
    let asked = asked_entries(alloc, mentions, &readings)?;
    let entries = entry_classes(alloc, mentions, &classes, &asked)?;
    suffixes_by(alloc, &entries)
}

//! What is known of mentions once all are disambiguated.
ghost use Rattle.std.specs.Prelude.{◌≡◌, ◌+◌, ◌*◌, ◌^◌, ◌<◌, false, IfOk, None, OnOk, Some, if◌then◌else◌, option_map, slice_get, unwrap_or};
ghost use Rattle.std.specs.Option.{option_and_then, option_map_or, option_or};
ghost use Rattle.mentions_groups.specs.declared.shown.ShownNames.{ShownNames as NamesValue};
ghost use Rattle.mentions_cites.specs.Mentions.{
  entry_suffix,
  first_with_names,
  kept_last,
  mention_index,
  mention_of,
  same_names,
  suffix_number,
  told_mention,
  told_mentions,
  unshown,
};
ghost use Rattle.mentions_cites.specs.NotedNames.{first_noted};

use driver_lookup::state::IdentifierUsage;
use mentions_arranging::request::Shown;
use mentions_cited::kept::KeptOfMention;
use mentions_groups::shown::ShownNames;
use mentions_ranges::suffixes::Suffix;
use mentions_tables::tables::Told;
use std::alloc::{AllocError, Global};
use std::collections::BTreeMap;

/// What is known of a mention once all are disambiguated.
#[derive(Clone, Copy)]
pub struct ToldMention {
    /// Which identifiers of its entry it had written where nothing disambiguated it.
    pub usage: IdentifierUsage,
    /// What it shows in the end. Its names and its text are given by the index of the first mention
    /// that shows equal names, or has its text.
    pub shown: Shown,
}

/// What was kept of a mention as it was written last.
pub(crate) fn last_of<'k>(
    first: &'k KeptOfMention,
    again: &'k Option<KeptOfMention>,
) -> &'k KeptOfMention
    ensures { result.now ≡ unwrap_or again.now first.now }
{
    match again {
        Some(again) => again,
        None => first,
    }
}

/// A copy of names.
fn copied(names: &ShownNames) -> Result<ShownNames, AllocError>
    ensures { IfOk result (λ copy. copy ≡ names.now) }
{
    Ok(ShownNames {
        text: names.text.clone()?,
        persons: names.persons.clone()?,
    })
}

/// Notes that the mention at an index shows these names, if none before it does.
fn note_shown(
    noted: &mut BTreeMap<ShownNames, usize>,
    index: usize,
    names: &ShownNames,
) -> Result<(), AllocError>
    ensures { OnOk result ((n : NamesValue) → first_noted noted.new n
        ≡ option_or (first_noted noted.old n)
        (if same_names n names.now then Some index else None)) }
{
    if noted.contains_key(names) {
        return Ok(());
    }
    noted.insert(copied(names)?, index)?;
    Ok(())
}

/// The same, if it shows any.
fn note_names(
    noted: &mut BTreeMap<ShownNames, usize>,
    index: usize,
    names: &Option<ShownNames>,
) -> Result<(), AllocError>
    ensures { OnOk result ((n : NamesValue) → first_noted noted.new n
        ≡ option_or (first_noted noted.old n)
        (if option_map_or (same_names n) names.now false then Some index else None)) }
{
    match names {
        Some(names) => note_shown(noted, index, names),
        None => Ok(()),
    }
}

/// The names that mentions show in the end, each with the index of the first that shows them.
///
/// # Errors
///
/// Where memory is refused.
pub fn noted_names(
    alloc: Global,
    firsts: &[KeptOfMention],
    again: &[Option<KeptOfMention>],
) -> Result<BTreeMap<ShownNames, usize>, AllocError>
    ensures { IfOk result (λ noted. (n : NamesValue) → first_noted noted n
        ≡ first_with_names (kept_last firsts.now again.now) n) }
{
    let mut noted = BTreeMap::new(alloc);
    let count = firsts.len().min(again.len());
    for k in 0..count {
        let last = last_of(&firsts[k], &again[k]);
        note_names(&mut noted, k, &last.names)?;
    }
    Ok(noted)
}

/// The index of the first mention that shows these names.
fn first_of(noted: &BTreeMap<ShownNames, usize>, names: &Option<ShownNames>) -> Option<usize>
    ensures { result ≡ option_and_then (first_noted noted.now) names.now }
{
    match names {
        Some(names) => noted.get(names).copied(),
        None => None,
    }
}

/// What is known of a mention, by what was kept of it at first and again, and by how it reads.
fn told_mention(
    noted: &BTreeMap<ShownNames, usize>,
    first: &KeptOfMention,
    again: &Option<KeptOfMention>,
    text: Option<usize>,
) -> ToldMention
    ensures { result ≡ told_mention (first_noted noted.now) first.now again.now text }
{
    let last = last_of(first, again);
    ToldMention {
        usage: first.usage,
        shown: Shown {
            names: first_of(noted, &last.names),
            text,
            has_number: last.shows_number,
            has_date: last.shows_date,
        },
    }
}

/// What is known of mentions whose names were noted.
fn mentions_by(
    alloc: Global,
    noted: &BTreeMap<ShownNames, usize>,
    firsts: &[KeptOfMention],
    again: &[Option<KeptOfMention>],
    texts: &[Option<usize>],
) -> Result<Vec<ToldMention>, AllocError>
    requires { (n : NamesValue) → first_noted noted.now n
        ≡ first_with_names (kept_last firsts.now again.now) n }
    ensures { IfOk result (λ v. v.items ≡ told_mentions firsts.now again.now texts.now) }
{
    let count = firsts.len().min(again.len()).min(texts.len());
    let mut mentions = Vec::with_capacity(alloc, count)?;
    for k in 0..count {
        mentions.push(told_mention(noted, &firsts[k], &again[k], texts[k]))?;
    }
    Ok(mentions)
}

/// What is known of the mentions that were disambiguated, in their order, by the names that they
/// show.
///
/// # Errors
///
/// Where memory is refused.
pub fn told_mentions(
    alloc: Global,
    told: &Told<KeptOfMention>,
    noted: &BTreeMap<ShownNames, usize>,
) -> Result<Vec<ToldMention>, AllocError>
    requires { (n : NamesValue) → first_noted noted.now n
        ≡ first_with_names (kept_last told.now.firsts.items told.now.again.items) n }
    ensures { IfOk result (λ v. v.items
        ≡ told_mentions told.now.firsts.items told.now.again.items told.now.texts.items) }
{
    mentions_by(alloc, noted, &told.firsts, &told.again, &told.texts)
}

/// A mention that nothing is known of.
fn unshown() -> ToldMention
    ensures { result ≡ unshown }
{
    ToldMention {
        usage: IdentifierUsage::None,
        shown: Shown {
            names: None,
            text: None,
            has_number: false,
            has_date: false,
        },
    }
}

/// Where the first mention of the entry at an index stands, or its later one.
fn mention_index(entry: usize, is_first: bool) -> usize
    requires { 2 * entry + 1 < 2 ^ 64 }
    ensures { result ≡ mention_index entry is_first }
{
    if is_first { 2 * entry } else { 2 * entry + 1 }
}

/// What a list by mentions has for the first mention of the entry at an index, or for its later
/// one.
pub fn by_mention<X>(all: &[X], entry: usize, is_first: bool) -> Option<&X>
    ensures { option_map (λ x. x.now) result ≡ slice_get all.now (mention_index entry is_first) }
{
    let half = all.len() / 2;
    // (so that twice the index is no overflow)
    if entry > half {
        return None;
    }
    all.get(mention_index(entry, is_first))
}

/// The first mention of the entry at an index, or its later one. Where there is no such mention,
/// nothing is shown.
pub fn mention_of(mentions: &[ToldMention], entry: usize, is_first: bool) -> ToldMention
    ensures { result ≡ mention_of mentions.now entry is_first }
{
    match by_mention(mentions, entry, is_first) {
        Some(mention) => *mention,
        None => unshown(),
    }
}

/// The number of the suffix of the entry at an index, if it has one.
pub fn suffix_number(suffixes: &[Option<usize>], entry: usize) -> Option<usize>
    ensures { result ≡ suffix_number suffixes.now entry }
{
    match suffixes.get(entry) {
        Some(number) => *number,
        None => None,
    }
}

/// The suffix of the entry at an index, if it has one. Its class is what the later mention of the
/// entry reads as: suffixes are given to entries whose later mentions read alike.
pub fn entry_suffix(
    mentions: &[ToldMention],
    suffixes: &[Option<usize>],
    entry: usize,
) -> Option<Suffix>
    ensures { result ≡ entry_suffix mentions.now suffixes.now entry }
{
    match suffix_number(suffixes, entry) {
        Some(number) => Some(Suffix {
            class: mention_of(mentions, entry, false).shown.text.unwrap_or(0),
            number,
        }),
        None => None,
    }
}

//! What changed between two answers.
ghost use Rattle.std.specs.Prelude.{◌≡◌, IfOk, map};
ghost use Rattle.cite_session.specs.Changes.{changed_texts, gone_keys, has_text};

use csl_base::text::Text;
use ordered_map::map::OrderedMap;
use std::alloc::{AllocError, Global};

/// Texts by distinct keys, in their order.
pub type KeyedTexts = OrderedMap<Text, Text>;

/// The texts of the new answer for which the old one has no equal text under the same key, with
/// their keys, in the order of the new answer.
///
/// # Errors
///
/// Where memory is refused.
pub fn changed<'n>(
    alloc: Global,
    old: &KeyedTexts,
    new: &'n KeyedTexts,
) -> Result<Vec<&'n (Text, Text)>, AllocError>
    ensures { IfOk result (λ v. map (λ e. e.now) v.items
        ≡ changed_texts old.now.entries new.now.entries) }
{
    let mut changed = Vec::new(alloc);
    let entries = new.as_slice();
    for entry in entries {
        if !has(old, entry) {
            changed.push(entry)?;
        }
    }
    Ok(changed)
}

/// The keys of the old answer that the new one lacks, in the order of the old answer.
///
/// # Errors
///
/// Where memory is refused.
pub fn gone<'o>(
    alloc: Global,
    old: &'o KeyedTexts,
    new: &KeyedTexts,
) -> Result<Vec<&'o Text>, AllocError>
    ensures { IfOk result (λ v. map (λ k. k.now) v.items
        ≡ gone_keys old.now.entries new.now.entries) }
{
    let mut gone = Vec::new(alloc);
    let entries = old.as_slice();
    for (key, _) in entries {
        if !new.contains_key(key) {
            gone.push(key)?;
        }
    }
    Ok(gone)
}

/// Whether an equal text stands under the key.
fn has(texts: &KeyedTexts, entry: &(Text, Text)) -> bool
    ensures { result ≡ has_text texts.now.entries entry.now }
{
    match texts.get(&entry.0) {
        Some(text) => *text == entry.1,
        None => false,
    }
}

/// Whether both answers have the same keys in the same order.
pub fn has_same_keys(old: &KeyedTexts, new: &KeyedTexts) -> bool {
    if old.len() != new.len() {
        return false;
    }
    for ((before, _), (now, _)) in old.as_slice().iter().zip(new.as_slice()) {
        if *before != *now {
            return false;
        }
    }
    true
}

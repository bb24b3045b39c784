//! What is known of the mentions that have a text.
ghost use Rattle.std.specs.Prelude.{◌≡◌, ◌++◌, ◌∷◌, ℕ, [], List, OnOk, Some, filter, option_map};
ghost use Rattle.mentions_groups.specs.Classes.{AreClassesOf, class_at, class_with, does_occur, first_if, group_found, is_other, joined, several_in};
ghost use Rattle.mentions_groups.specs.declared.mention.Mention.{Mention as MentionValue};

use crate::mention::Mention;
use std::alloc::AllocError;
use std::collections::BTreeMap;
use value_lists::text::Text;

/// The mentions of a text.
#[derive(Clone, Copy)]
pub(crate) struct Class {
    /// The index of the first of them.
    pub(crate) first: usize,
    /// The entry that it mentions.
    pub(crate) entry: usize,
    /// Whether another one mentions another entry.
    pub(crate) several: bool,
}

/// The mentions that were looked at, by their texts.
pub(crate) type Classes = BTreeMap<Text, Class>;

/// What is known once one that mentions this entry was added.
fn joined(class: &Class, entry: usize) -> Class
    ensures { result ≡ joined entry class.now }
{
    Class {
        first: class.first,
        entry: class.entry,
        several: class.several || class.entry != entry,
    }
}

/// What is known of a mention's text once the mention was added, at index `k`.
fn class_with(classes: &Classes, k: usize, mention: &Mention) -> Class
    ensures { result ≡ class_with k mention.now.entry (class_at classes.now mention.now.text) }
{
    match classes.get(&mention.text) {
        Some(class) => joined(class, mention.entry),
        None => Class {
            first: k,
            entry: mention.entry,
            several: false,
        },
    }
}

/// Adds the mention at index `k`.
pub(crate) fn add(classes: &mut Classes, k: usize, mention: &Mention) -> Result<(), AllocError>
    ensures { OnOk result ((before : List (ℕ × MentionValue)) → AreClassesOf classes.old before
        → AreClassesOf classes.new (before ++ (k, mention.now) ∷ [])) }
{
    let class = class_with(classes, k, mention);
    classes.insert(mention.text.clone()?, class)?;
    Ok(())
}

/// Adds the mention at index `k`, if it occurs.
pub(crate) fn add_if_it_occurs(
    classes: &mut Classes,
    k: usize,
    mention: &Mention,
) -> Result<(), AllocError>
    ensures { OnOk result ((before : List (ℕ × MentionValue)) → AreClassesOf classes.old before
        → AreClassesOf classes.new (before ++ filter does_occur ((k, mention.now) ∷ []))) }
{
    if mention.occurs {
        add(classes, k, mention)?;
    }
    Ok(())
}

/// The index of the first mention with this one's text.
pub(crate) fn first_of(classes: &Classes, mention: &Mention) -> Option<usize>
    ensures { result ≡ option_map (λ c. c.first) (class_at classes.now mention.now.text) }
{
    match classes.get(&mention.text) {
        Some(class) => Some(class.first),
        None => None,
    }
}

/// Whether mentions of several entries have this one's text.
pub(crate) fn are_several(classes: &Classes, mention: &Mention) -> bool
    ensures { result ≡ several_in (class_at classes.now mention.now.text) }
{
    match classes.get(&mention.text) {
        Some(class) => class.several,
        None => false,
    }
}

/// The index of the first mention with this one's text that occurs, or else of the first one, where
/// another entry is mentioned by it.
pub(crate) fn group_found(
    classes: &Classes,
    occurring: &Classes,
    mention: &Mention,
) -> Option<usize>
    ensures { result ≡ group_found classes.now occurring.now mention.now }
{
    match classes.get(&mention.text) {
        Some(class) => first_if_other(class, first_of(occurring, mention), mention.entry),
        None => None,
    }
}

/// The index of the leader of a class, where another entry than this one is mentioned. The leader is
/// the first that occurs, if there is one, and else the first of all.
fn first_if_other(class: &Class, occurring: Option<usize>, entry: usize) -> Option<usize>
    ensures { result
        ≡ first_if (is_other entry (Some class.now)) occurring (Some class.now) }
{
    if class.several || class.entry != entry {
        Some(occurring.unwrap_or(class.first))
    } else {
        None
    }
}

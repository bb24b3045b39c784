//! Ambiguous groups: mentions that read alike, of several entries.
ghost use Rattle.std.specs.Prelude.{◌≡◌, IfOk, List, filter, map};
ghost use Rattle.std.specs.List.{enumerate_from};
ghost use Rattle.mentions_groups.specs.Classes.{AreClassesOf, does_occur};
ghost use Rattle.mentions_groups.specs.Groups.{group_of, has_text, is_asked, text_of};
ghost use Rattle.mentions_groups.specs.declared.mention.Mention.{Mention as MentionValue};

use crate::classes::{Classes, add, add_if_it_occurs, are_several, first_of, group_found};
use crate::mention::Mention;
use std::alloc::{AllocError, Global};
use std::collections::BTreeMap;

/// The mentions by their texts.
fn classes_of(alloc: Global, mentions: &[Mention]) -> Result<Classes, AllocError>
    ensures { IfOk result (λ c. AreClassesOf c (enumerate_from 0 mentions.now)) }
{
    let mut classes = BTreeMap::new(alloc);
    for (k, mention) in mentions.iter().enumerate() {
        add(&mut classes, k, mention)?;
    }
    Ok(classes)
}

/// Those that occur, by their texts.
fn occurring_of(alloc: Global, mentions: &[Mention]) -> Result<Classes, AllocError>
    ensures { IfOk result (λ c. AreClassesOf c
        (filter does_occur (enumerate_from 0 mentions.now))) }
{
    let mut classes = BTreeMap::new(alloc);
    for (k, mention) in mentions.iter().enumerate() {
        add_if_it_occurs(&mut classes, k, mention)?;
    }
    Ok(classes)
}

/// Whether something was written of a mention.
fn has_text(mention: &Mention) -> bool
    ensures { result ≡ has_text mention.now }
{
    !mention.text.as_str().is_empty()
}

/// The group of a mention among those that the classes are of.
fn group_among(classes: &Classes, occurring: &Classes, mention: &Mention) -> Option<usize>
    ensures { (mentions : List MentionValue) → AreClassesOf classes.now (enumerate_from 0 mentions)
        → AreClassesOf occurring.now (filter does_occur (enumerate_from 0 mentions))
        → result ≡ group_of mentions mention.now }
{
    if has_text(mention) {
        group_found(classes, occurring, mention)
    } else {
        None
    }
}

/// What a mention reads as among those that the classes are of.
fn text_among(classes: &Classes, mention: &Mention) -> Option<usize>
    ensures { (mentions : List MentionValue) → AreClassesOf classes.now (enumerate_from 0 mentions)
        → result ≡ text_of mentions mention.now }
{
    if has_text(mention) {
        first_of(classes, mention)
    } else {
        None
    }
}

/// Whether mentions of two entries occur that read as this one does.
fn is_asked_among(occurring: &Classes, mention: &Mention) -> bool
    ensures { (mentions : List MentionValue)
        → AreClassesOf occurring.now (filter does_occur (enumerate_from 0 mentions))
        → result ≡ is_asked mentions mention.now }
{
    has_text(mention) && are_several(occurring, mention)
}

/// What mentions read as: for each whose text is not empty, the index of the first one with its
/// text. So two of them read alike where they have the same index.
///
/// # Errors
///
/// Where memory is refused.
pub fn texts_of(alloc: Global, mentions: &[Mention]) -> Result<Vec<Option<usize>>, AllocError>
    ensures { IfOk result (λ v. v.items ≡ map (text_of mentions.now) mentions.now) }
{
    let classes = classes_of(alloc, mentions)?;
    let mut found = Vec::with_capacity(alloc, mentions.len())?;
    for mention in mentions {
        found.push(text_among(&classes, mention))?;
    }
    Ok(found)
}

/// The ambiguous groups of a document's mentions (CSL 1.0.2, disambiguation): for each mention
/// whose text is not empty, and is also that of a mention of another entry, the index of the
/// first mention that occurs with its text, or else of the first one.
///
/// # Errors
///
/// Where memory is refused.
pub fn groups_of(alloc: Global, mentions: &[Mention]) -> Result<Vec<Option<usize>>, AllocError>
    ensures { IfOk result (λ v. v.items ≡ map (group_of mentions.now) mentions.now) }
{
    let classes = classes_of(alloc, mentions)?;
    let occurring = occurring_of(alloc, mentions)?;
    let mut found = Vec::with_capacity(alloc, mentions.len())?;
    for mention in mentions {
        found.push(group_among(&classes, &occurring, mention))?;
    }
    Ok(found)
}

/// Which of a document's mentions are asked to differ: those whose text is not empty, and is that
/// of mentions of two entries that occur.
///
/// # Errors
///
/// Where memory is refused.
pub fn asked_of(alloc: Global, mentions: &[Mention]) -> Result<Vec<bool>, AllocError>
    ensures { IfOk result (λ v. v.items ≡ map (is_asked mentions.now) mentions.now) }
{
    let occurring = occurring_of(alloc, mentions)?;
    let mut asked = Vec::with_capacity(alloc, mentions.len())?;
    for mention in mentions {
        asked.push(is_asked_among(&occurring, mention))?;
    }
    Ok(asked)
}

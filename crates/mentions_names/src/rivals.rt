//! Who is named beside others, by what they share.
ghost use Rattle.std.specs.Prelude.{◌≡◌, ◌∷◌, [], None, Some, OnOk, IfOk, is_some};
ghost use Rattle.mentions_names.specs.Rivals.{TellsMore, at_node, by_family, by_initials, form_by, held_for, held_with, is_other, is_other_held, joined, keys_at, named_keys};
ghost use Rattle.mentions_names.specs.Looks.{has_given};

use crate::look::Look;
use std::alloc::{AllocError, Global};
use std::collections::BTreeMap;
use value_lists::text::Text;
use value_sources::names::DisambiguatedNameForm;

/// Where names lead from the beginning of a mention.
#[derive(Clone, Copy, PartialEq, Eq, PartialOrd, Ord, Hash)]
pub(crate) enum Node {
    /// Before the first name, in this group.
    Start(usize),
    /// Behind the step of this number.
    Step(usize),
}

/// What looks share that go on from one node: nothing else, a family name, or this and the
/// initials.
#[derive(PartialEq, Eq, PartialOrd, Ord, Drop)]
pub(crate) struct SharedName {
    pub(crate) node: Node,
    pub(crate) name: Option<Text>,
    pub(crate) initials: Option<Text>,
}

/// The looks that are held for a shared name: one alone, or two or more, whichever.
#[derive(Drop)]
pub(crate) enum Held {
    One(Look),
    Several,
}

/// For each shared name, enough of the looks to decide for any whether there is another.
pub(crate) type Rivals = BTreeMap<SharedName, Held>;

/// Whether another look than this one is held.
fn is_other(held: &Held, look: &Look) -> bool
    ensures { result ≡ is_other look.now held.now }
{
    match held {
        Held::One(one) => *look != *one,
        Held::Several => true,
    }
}

/// What is held once this look was added.
fn joined(held: &Held, look: &Look) -> Result<Held, AllocError>
    ensures { IfOk result (λ h. h ≡ joined look.now held.now) }
{
    match held {
        Held::One(one) => {
            if *look == *one {
                Ok(Held::One(one.clone()?))
            } else {
                Ok(Held::Several)
            }
        }
        Held::Several => Ok(Held::Several),
    }
}

/// What is held for a name once this look was added.
fn held_with(rivals: &Rivals, name: &SharedName, look: &Look) -> Result<Held, AllocError>
    ensures { IfOk result (λ h. h ≡ held_with look.now (held_for rivals.now name.now)) }
{
    match rivals.get(name) {
        Some(held) => joined(held, look),
        None => Ok(Held::One(look.clone()?)),
    }
}

/// Adds a look under a shared name.
fn add(rivals: &mut Rivals, name: SharedName, look: &Look) -> Result<(), AllocError>
    ensures { OnOk result (TellsMore rivals.old rivals.new ((name, look.now) ∷ [])) }
{
    let held = held_with(rivals, &name, look)?;
    rivals.insert(name, held)?;
    Ok(())
}

/// All that goes on from a node.
pub(crate) fn at_node(node: Node) -> SharedName
    ensures { result ≡ at_node node }
{
    SharedName {
        node,
        name: None,
        initials: None,
    }
}

/// The family name of a look.
fn by_family(node: Node, look: &Look) -> Result<SharedName, AllocError>
    ensures { IfOk result (λ n. n ≡ by_family node look.now) }
{
    Ok(SharedName {
        node,
        name: Some(look.name.clone()?),
        initials: None,
    })
}

/// The family name and the initials of a look.
fn by_initials(alloc: Global, node: Node, look: &Look) -> Result<SharedName, AllocError>
    ensures { IfOk result (λ n. n ≡ by_initials node look.now) }
{
    Ok(SharedName {
        node,
        name: Some(look.name.clone()?),
        initials: Some(look.initials(alloc)?),
    })
}

/// Adds a look by its family name, and by this and the initials.
pub(crate) fn add_named(
    alloc: Global,
    rivals: &mut Rivals,
    node: Node,
    look: &Look,
) -> Result<(), AllocError>
    ensures { OnOk result (TellsMore rivals.old rivals.new (named_keys node look.now)) }
{
    let family = by_family(node, look)?;
    add(rivals, family, look)?;
    let both = by_initials(alloc, node, look)?;
    add(rivals, both, look)?;
    Ok(())
}

/// Adds a look that goes on from a node; where given names are added cite by cite also by its
/// names.
pub(crate) fn add_at(
    alloc: Global,
    rivals: &mut Rivals,
    by_cite: bool,
    node: Node,
    look: &Look,
) -> Result<(), AllocError>
    ensures { OnOk result (TellsMore rivals.old rivals.new (keys_at by_cite node look.now)) }
{
    let any = at_node(node);
    add(rivals, any, look)?;
    if !by_cite {
        return Ok(());
    }
    add_named(alloc, rivals, node, look)?;
    Ok(())
}

/// Whether something goes on from there.
pub(crate) fn is_held(rivals: &Rivals, name: &SharedName) -> bool
    ensures { result ≡ is_some (held_for rivals.now name.now) }
{
    rivals.get(name).is_some()
}

/// Whether another look than this one shares the name.
pub(crate) fn has_other(rivals: &Rivals, name: &SharedName, look: &Look) -> bool
    ensures { result ≡ is_other_held look.now (held_for rivals.now name.now) }
{
    match rivals.get(name) {
        Some(held) => is_other(held, look),
        None => false,
    }
}

/// The form that a look in full needs beside the others that go on from a node. The names of
/// those who share its initials are asked only where it has namesakes.
pub(crate) fn needed_form(
    alloc: Global,
    rivals: &Rivals,
    node: Node,
    look: &Look,
) -> Result<DisambiguatedNameForm, AllocError>
    ensures { IfOk result (λ f. f ≡ form_by (has_given look.now)
        (is_other_held look.now (held_for rivals.now (by_family node look.now)))
        (is_other_held look.now (held_for rivals.now (by_initials node look.now)))) }
{
    if !look.has_given() || !has_other(rivals, &by_family(node, look)?, look) {
        return Ok(DisambiguatedNameForm::Short);
    }
    if has_other(rivals, &by_initials(alloc, node, look)?, look) {
        Ok(DisambiguatedNameForm::LongFull)
    } else {
        Ok(DisambiguatedNameForm::LongInitialized)
    }
}

//! Substitution over all items of a bibliography.
ghost use Rattle.std.specs.Prelude.{
  ◌≡◌,
  ◌≤◌,
  ◌++◌,
  ◌∷◌,
  [],
  None,
  map,
  option_map,
  length,
  OnOk,
  IfOk,
};
ghost use Rattle.rounds_substitution.specs.Laws.{KeepsAllButNames};
ghost use Rattle.rounds_substitution.specs.Substitution.{substituted};
ghost use Rattle.rounds_substitution.specs.ItemView.{rendered_items_view};
ghost use Rattle.rounds_substitution.specs.Changes.{next_base, plan, planned, trees_changed};

use crate::changes::{Change, change_of};
use crate::names::{Named, with_names};
use crate::rewriting::change_tree;
use csl_base::elem::ElemChildren;
use csl_base::formatting::{Formatted, Formatting};
use csl_base::style::SubsequentAuthorSubstituteRule;
use std::alloc::{AllocError, Global};

/// Puts the substitute in place of names that an item shares with one before it (CSL 1.0.2,
/// reference grouping, `subsequent-author-substitute`). The items are the trees of a bibliography
/// in its order, each with its key. Nothing changes without a substitute.
///
/// An item's names are the `Name` elements in its first names element; an item without a names
/// element is skipped. It is compared with the latest item before it that has a names element
/// and in which nothing was substituted. The first item never changes, and in the others at most
/// the children of the first names element do.
///
/// By `CompleteAll` and `CompleteEach` it is substituted where all names are equal, by
/// `PartialEach` and `PartialFirst` where the first one is. The substitute then comes first in the
/// names element. Behind it stands by `CompleteAll` what is left without the names, and by
/// `CompleteEach` what was there, with the substitute in the first name of each child. So it does
/// by `PartialEach` and `PartialFirst`, up to as many names as are equal from the first on, or up
/// to one; the children after that are dropped.
///
/// An item with a names element but no names goes by `CompleteAll`, whatever the rule: it is
/// substituted where the two names elements are equal.
///
/// # Errors
///
/// Where memory is refused; the items may only be dropped then.
pub fn substitute_subsequent_authors(
    alloc: Global,
    substitute: Option<&str>,
    rule: SubsequentAuthorSubstituteRule,
    items: &mut [(ElemChildren, String)],
) -> Result<(), AllocError>
    ensures substituted { OnOk result (rendered_items_view items.new
        ≡ substituted (option_map (λ s. s.now) substitute.entry) rule
        (rendered_items_view items.old)) }
    ensures laws { OnOk result (KeepsAllButNames (rendered_items_view items.old)
        (rendered_items_view items.new)) }
{
    match substitute {
        Some(substitute) => {
            let text = Formatting::default().add_text(String::from_str(alloc, substitute)?);
            let plan = plan(alloc, rule, items)?;
            carry_out(alloc, &text, &plan, items)
        }
        None => Ok(()),
    }
}

/// What is done to each item.
fn plan(
    alloc: Global,
    rule: SubsequentAuthorSubstituteRule,
    items: &[(ElemChildren, String)],
) -> Result<Vec<Option<Change>>, AllocError>
    ensures { IfOk result (λ changes. changes.items ≡ plan rule None (map (λ p. p.0) items.now)) }
{
    let mut changes = Vec::with_capacity(alloc, items.len())?;
    let mut base = None;
    for item in items {
        base = plan_next(alloc, rule, base, &item.0, &mut changes)?;
    }
    Ok(changes)
}

/// Adds what is done to the next item, and gives the names that the one after it is compared with.
fn plan_next<'a>(
    alloc: Global,
    rule: SubsequentAuthorSubstituteRule,
    base: Option<Named<'a>>,
    tree: &'a ElemChildren,
    changes: &mut Vec<Option<Change>>,
) -> Result<Option<Named<'a>>, AllocError>
    ensures next { IfOk result (λ next. option_map (λ n. n.elem.now) next
        ≡ next_base rule (option_map (λ n. n.elem.now) base.entry) tree.now) }
    ensures added { OnOk result (changes.new.items
        ≡ changes.old.items ++ planned rule (option_map (λ n. n.elem.now) base.entry)
        tree.now ∷ []) }
{
    match tree.find_names() {
        Some(elem) => {
            let own = with_names(alloc, elem)?;
            let change = change_of(rule, &base, &own);
            changes.push(change)?;
            if change.is_some() {
                Ok(base)
            } else {
                Ok(Some(own))
            }
        }
        None => {
            changes.push(None)?;
            Ok(base)
        }
    }
}

/// Makes the changes, one to each item.
fn carry_out(
    alloc: Global,
    text: &Formatted,
    changes: &[Option<Change>],
    items: &mut [(ElemChildren, String)],
) -> Result<(), AllocError>
    requires { length items.old ≤ length changes.now }
    ensures trees { OnOk result (map (λ p. p.0) items.new
        ≡ trees_changed text.now changes.now (map (λ p. p.0) items.old)) }
    ensures keys { OnOk result (map (λ p. p.1) items.new ≡ map (λ p. p.1) items.old) }
{
    for i in 0..items.len() {
        if let Some(change) = changes[i] {
            change_tree(alloc, text, change, &mut items[i].0)?;
        }
    }
    Ok(())
}

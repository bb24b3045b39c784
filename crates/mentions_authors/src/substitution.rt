//! Repeated authors replaced in all items of a bibliography.
ghost use Rattle.std.specs.Prelude.{◌≡◌, ◌≤◌, length, map, option_map, IfOk, OnOk};
ghost use Rattle.mentions_authors.specs.Names.{names_of};
ghost use Rattle.mentions_authors.specs.Substitution.{
  each_substituted,
  items_view,
  repeats,
  with_substitute,
};

use crate::names::names_of;
use crate::repeated::{ItemNames, Substituted, repeated_authors};
use crate::rewriting::rewrite_tree;
use std::alloc::{AllocError, Global};
use value_lists::seq::Seq;
use value_lists::text::Text;
use value_sources::entry::Person;
use value_sources::formatting::{Formatted, Formatting};
use value_styles::style::SubsequentAuthorSubstituteRule;
use value_trees::elem::ElemChildren;

/// Puts the substitute in place of names that an item shares with the one directly before it (CSL
/// 1.0.2, reference grouping, `subsequent-author-substitute`). The items are the trees of a
/// bibliography in its order, each with its key. Nothing changes without a substitute.
///
/// An item's names are the `Name` elements in its first names element, by how they read; a name
/// inside another isn't one of its own. Items are compared as they were before anything is
/// replaced (`repeated_authors`). Where all names are replaced together, the substitute is all
/// that the names element has; else it is all that each name has that is replaced. What stands
/// outside stays.
///
/// # Errors
///
/// Where memory is refused; the items may only be dropped then.
pub fn substitute_repeated_authors(
    alloc: Global,
    substitute: Option<&str>,
    rule: SubsequentAuthorSubstituteRule,
    items: &mut [(ElemChildren, String)],
) -> Result<(), AllocError>
    ensures { OnOk result (items_view items.new
        ≡ with_substitute (option_map (λ s. s.now) substitute.entry) rule (items_view items.old)) }
{
    match substitute {
        Some(substitute) => {
            let text = Formatting::default().add_text(String::from_str(alloc, substitute)?);
            let told = repeats(alloc, rule, items)?;
            rewrite_each(alloc, &text, &told, items)
        }
        None => Ok(()),
    }
}

/// Which names of each item repeat those of the one before it.
fn repeats(
    alloc: Global,
    rule: SubsequentAuthorSubstituteRule,
    items: &[(ElemChildren, String)],
) -> Result<Vec<Substituted>, AllocError>
    ensures { IfOk result (λ v. v.items ≡ repeats rule (items_view items.now)) }
{
    let names = all_names(alloc, items)?;
    repeated_authors(alloc, rule, &names)
}

/// The names of each item.
fn all_names(
    alloc: Global,
    items: &[(ElemChildren, String)],
) -> Result<Vec<Option<ItemNames<Text, Seq<Seq<Person>>>>>, AllocError>
    ensures { IfOk result (λ v. v.items ≡ map (λ i. names_of i.0) (items_view items.now)) }
{
    let mut names = Vec::with_capacity(alloc, items.len())?;
    for item in items {
        names.push(names_of(alloc, &item.0)?)?;
    }
    Ok(names)
}

/// Puts the substitute into each item, in place of as many names as are said of it.
fn rewrite_each(
    alloc: Global,
    substitute: &Formatted,
    told: &[Substituted],
    items: &mut [(ElemChildren, String)],
) -> Result<(), AllocError>
    requires { length items.old ≤ length told.now }
    ensures { OnOk result (items_view items.new
        ≡ each_substituted substitute.now told.now (items_view items.old)) }
{
    for i in 0..items.len() {
        rewrite_tree(alloc, substitute, told[i], &mut items[i].0)?;
    }
    Ok(())
}

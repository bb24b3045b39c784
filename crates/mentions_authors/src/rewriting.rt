//! What is written into an item's tree.
ghost use Rattle.std.specs.Prelude.{◌≡◌, ◌-◌, ◌∷◌, [], length, IfOk, OnOk};
ghost use Rattle.value_trees.specs.Child.{text};
ghost use Rattle.value_trees.specs.ChildView.{child_view};
ghost use Rattle.mentions_authors.specs.Names.{child_names, names_within};
ghost use Rattle.mentions_authors.specs.Substitution.{
  child_written,
  elem_substituted,
  names_substituted,
  names_written,
  tree_substituted,
};

use crate::names::is_name;
use crate::repeated::Substituted;
use std::alloc::{AllocError, Global};
use value_sources::formatting::Formatted;
use value_trees::elem::{Elem, ElemChild, ElemChildren};

fn text_alone(alloc: Global, substitute: &Formatted) -> Result<ElemChildren, AllocError>
    ensures { IfOk result (λ tree. tree ≡ text substitute.now ∷ []) }
{
    let mut tree = ElemChildren::new(alloc);
    tree.push(ElemChild::Text(substitute.clone()?))?;
    Ok(tree)
}

/// Puts the substitute in place of the children of so many names, from the first on, and says how
/// many are left to be replaced.
#[cycle(write)]
fn write_names(
    alloc: Global,
    substitute: &Formatted,
    count: usize,
    tree: &mut ElemChildren,
) -> Result<usize, AllocError>
    ensures left { IfOk result (λ left. left ≡ count - length (names_within tree.old)) }
    ensures written { OnOk result (tree.new ≡ names_written substitute.now count tree.old) }
{
    let mut left = count;
    for i in 0..tree.0.len() {
        left = write_names_in(alloc, substitute, left, &mut tree.0[i])?;
    }
    Ok(left)
}

#[cycle(write)]
fn write_names_in(
    alloc: Global,
    substitute: &Formatted,
    count: usize,
    child: &mut ElemChild,
) -> Result<usize, AllocError>
    ensures left { IfOk result
        (λ left. left ≡ count - length (child_names (child_view child.old))) }
    ensures written { OnOk result
        (child_view child.new ≡ child_written substitute.now count (child_view child.old)) }
{
    match child {
        ElemChild::Elem(elem) => {
            if !is_name(elem) {
                write_names(alloc, substitute, count, &mut elem.children)
            } else if count == 0 {
                Ok(0)
            } else {
                elem.children = text_alone(alloc, substitute)?;
                Ok(count - 1)
            }
        }
        ElemChild::Text(_) => Ok(count),
        ElemChild::Markup(_) => Ok(count),
        ElemChild::Link { .. } => Ok(count),
        ElemChild::Transparent { .. } => Ok(count),
    }
}

/// Puts the substitute in place of so many names, from the first on.
fn write_first_names(
    alloc: Global,
    substitute: &Formatted,
    count: usize,
    tree: &mut ElemChildren,
) -> Result<(), AllocError>
    ensures { OnOk result (tree.new ≡ names_written substitute.now count tree.old) }
{
    let _left = write_names(alloc, substitute, count, tree)?;
    Ok(())
}

/// Puts the substitute in place of names among the children of a names element.
fn rewrite_children(
    alloc: Global,
    substitute: &Formatted,
    substituted: Substituted,
    tree: &mut ElemChildren,
) -> Result<(), AllocError>
    ensures { OnOk result
        (tree.new ≡ names_substituted substitute.now substituted tree.old) }
{
    match substituted {
        Substituted::Nothing => Ok(()),
        Substituted::Together => {
            *tree = text_alone(alloc, substitute)?;
            Ok(())
        }
        Substituted::Leading(count) => write_first_names(alloc, substitute, count, tree),
    }
}

fn rewrite_elem(
    alloc: Global,
    substitute: &Formatted,
    substituted: Substituted,
    elem: &mut Elem,
) -> Result<(), AllocError>
    ensures { OnOk result (elem.new ≡ elem_substituted substitute.now substituted elem.old) }
{
    rewrite_children(alloc, substitute, substituted, &mut elem.children)
}

/// Puts the substitute in place of names in an item's first names element.
///
/// # Errors
///
/// Where memory is refused; the tree may only be dropped then.
pub(crate) fn rewrite_tree(
    alloc: Global,
    substitute: &Formatted,
    substituted: Substituted,
    tree: &mut ElemChildren,
) -> Result<(), AllocError>
    ensures { OnOk result (tree.new ≡ tree_substituted substitute.now substituted tree.old) }
{
    match tree.find_names_mut() {
        Some(elem) => rewrite_elem(alloc, substitute, substituted, elem),
        None => Ok(()),
    }
}

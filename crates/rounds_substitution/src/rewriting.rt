//! What is written into a names element.
ghost use Rattle.std.specs.Prelude.{◌≡◌, ◌∷◌, [], map, filter, not, is_some, OnOk, IfOk};
ghost use Rattle.value_trees.specs.Child.{text};
ghost use Rattle.value_trees.specs.ChildView.{child_view};
ghost use Rattle.value_trees.specs.Tree.{find_elem};
ghost use Rattle.rounds_substitution.specs.Names.{is_name};
ghost use Rattle.rounds_substitution.specs.Rewriting.{
  child_is_name,
  child_without_names,
  without_names,
  holds_name,
  name_replaced,
  first_name_replaced,
  up_to_names,
  changed,
  elem_changed,
};
ghost use Rattle.rounds_substitution.specs.Changes.{tree_changed};

use crate::changes::Change;
use crate::names::is_name;
use csl_base::elem::{Elem, ElemChild, ElemChildren};
use csl_base::formatting::Formatted;
use std::alloc::{AllocError, Global};

/// Whether the child is a `Name` element.
fn child_is_name(child: &ElemChild) -> bool
    ensures { result ≡ child_is_name (child_view child.now) }
{
    match child {
        ElemChild::Elem(elem) => is_name(elem),
        ElemChild::Text(_) => false,
        ElemChild::Markup(_) => false,
        ElemChild::Link { .. } => false,
        ElemChild::Transparent { .. } => false,
    }
}

/// Takes out the `Name` elements at every depth.
#[cycle(remove)]
fn remove_names(tree: &mut ElemChildren)
    ensures { tree.new ≡ without_names tree.old }
{
    for i in 0..tree.0.len() {
        remove_names_in(&mut tree.0[i]);
    }
    drop_names(tree);
}

#[cycle(remove)]
fn remove_names_in(child: &mut ElemChild)
    ensures { child_view child.new ≡ child_without_names (child_view child.old) }
{
    match child {
        ElemChild::Elem(elem) => remove_names(&mut elem.children),
        ElemChild::Text(_) => {}
        ElemChild::Markup(_) => {}
        ElemChild::Link { .. } => {}
        ElemChild::Transparent { .. } => {}
    }
}

/// Takes out the `Name` elements among the children, and not inside them.
fn drop_names(tree: &mut ElemChildren)
    ensures { tree.new ≡ filter (λ c. not (child_is_name c)) tree.old }
{
    tree.0.retain(|child| !child_is_name(child));
}

fn text_alone(alloc: Global, substitute: &Formatted) -> Result<ElemChildren, AllocError>
    ensures { IfOk result (λ tree. tree ≡ text substitute.now ∷ []) }
{
    let mut tree = ElemChildren::new(alloc);
    tree.push(ElemChild::Text(substitute.clone()?))?;
    Ok(tree)
}

fn put_before(substitute: &Formatted, tree: &mut ElemChildren) -> Result<(), AllocError>
    ensures { OnOk result (tree.new ≡ text substitute.now ∷ tree.old) }
{
    tree.0.insert(0, ElemChild::Text(substitute.clone()?))?;
    Ok(())
}

/// Puts the substitute in place of what the first `Name` element has as children, and says whether
/// there is one.
#[cycle(replace)]
fn replace_first_name(
    alloc: Global,
    substitute: &Formatted,
    tree: &mut ElemChildren,
) -> Result<bool, AllocError>
    ensures found { IfOk result (λ found. found ≡ is_some (find_elem is_name tree.old)) }
    ensures written { OnOk result (tree.new ≡ first_name_replaced substitute.now tree.old) }
{
    for i in 0..tree.0.len() {
        if replace_name(alloc, substitute, &mut tree.0[i])? {
            return Ok(true);
        }
    }
    Ok(false)
}

#[cycle(replace)]
fn replace_name(
    alloc: Global,
    substitute: &Formatted,
    child: &mut ElemChild,
) -> Result<bool, AllocError>
    ensures found { IfOk result (λ found. found ≡ holds_name (child_view child.old)) }
    ensures written { OnOk result (child_view child.new
        ≡ name_replaced substitute.now (child_view child.old)) }
{
    match child {
        ElemChild::Elem(elem) => {
            if is_name(elem) {
                elem.children = text_alone(alloc, substitute)?;
                Ok(true)
            } else {
                replace_first_name(alloc, substitute, &mut elem.children)
            }
        }
        ElemChild::Text(_) => Ok(false),
        ElemChild::Markup(_) => Ok(false),
        ElemChild::Link { .. } => Ok(false),
        ElemChild::Transparent { .. } => Ok(false),
    }
}

/// Puts the substitute into the first name in each of the children, until it is in `n`; the
/// children after that are dropped.
fn replace_names(
    alloc: Global,
    substitute: &Formatted,
    n: usize,
    tree: &mut ElemChildren,
) -> Result<(), AllocError>
    ensures { OnOk result (tree.new ≡ map (name_replaced substitute.now) (up_to_names n tree.old)) }
{
    let mut left = n;
    for i in 0..tree.0.len() {
        if left == 0 {
            tree.0.truncate(i);
            return Ok(());
        }
        if replace_name(alloc, substitute, &mut tree.0[i])? {
            left -= 1;
        }
    }
    Ok(())
}

/// Puts the substitute into the first name in each of the children.
fn replace_each_name(
    alloc: Global,
    substitute: &Formatted,
    tree: &mut ElemChildren,
) -> Result<(), AllocError>
    ensures { OnOk result (tree.new ≡ map (name_replaced substitute.now) tree.old) }
{
    replace_names(alloc, substitute, tree.0.len(), tree)
}

fn change_children(
    alloc: Global,
    substitute: &Formatted,
    change: Change,
    tree: &mut ElemChildren,
) -> Result<(), AllocError>
    ensures { OnOk result (tree.new ≡ changed substitute.now change tree.old) }
{
    match change {
        Change::SubstituteAlone => {
            *tree = text_alone(alloc, substitute)?;
            Ok(())
        }
        Change::WithoutNames => {
            remove_names(tree);
            put_before(substitute, tree)
        }
        Change::EachNameReplaced => {
            replace_each_name(alloc, substitute, tree)?;
            put_before(substitute, tree)
        }
        Change::FirstNamesReplaced(n) => {
            replace_names(alloc, substitute, n, tree)?;
            put_before(substitute, tree)
        }
    }
}

fn change_elem(
    alloc: Global,
    substitute: &Formatted,
    change: Change,
    elem: &mut Elem,
) -> Result<(), AllocError>
    ensures { OnOk result (elem.new ≡ elem_changed substitute.now change elem.old) }
{
    change_children(alloc, substitute, change, &mut elem.children)
}

/// Makes the change to the tree's first names element.
///
/// # Errors
///
/// Where memory is refused; the tree may only be dropped then.
pub(crate) fn change_tree(
    alloc: Global,
    substitute: &Formatted,
    change: Change,
    tree: &mut ElemChildren,
) -> Result<(), AllocError>
    ensures { OnOk result (tree.new ≡ tree_changed substitute.now (Some change) tree.old) }
{
    match tree.find_names_mut() {
        Some(elem) => change_elem(alloc, substitute, change, elem),
        None => Ok(()),
    }
}

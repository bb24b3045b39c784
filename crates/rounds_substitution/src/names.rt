//! The names of an item.
ghost use Rattle.std.specs.Prelude.{◌≡◌, ◌++◌, map, OnOk, IfOk};
ghost use Rattle.value_trees.specs.ChildView.{child_view};
ghost use Rattle.rounds_substitution.specs.Names.{is_name, child_names, names_in, names_within};

use csl_base::elem::{Elem, ElemChild, ElemChildren, ElemMeta};
use std::alloc::{AllocError, Global};

/// A names element with its names.
#[derive(Drop)]
pub(crate) struct Named<'a> {
    pub(crate) elem: &'a Elem,
    pub(crate) names: Vec<&'a Elem>,
    ghost listed: { map (λ e. e.now) names.items ≡ names_within elem.now },
}

/// Whether the meta is `Name`.
pub(crate) fn is_name(elem: &Elem) -> bool
    ensures { result ≡ is_name elem.now }
{
    matches!(elem.meta, Some(ElemMeta::Name(_, _)))
}

/// The names element with its names.
///
/// # Errors
///
/// Where memory is refused.
pub(crate) fn with_names<'a>(alloc: Global, elem: &'a Elem) -> Result<Named<'a>, AllocError>
    ensures { IfOk result (λ named. named.elem.now ≡ elem.now) }
{
    let mut names = Vec::new(alloc);
    add_names(&mut names, &elem.children)?;
    Ok(Named { elem, names })
}

#[cycle(names)]
fn add_names<'a>(names: &mut Vec<&'a Elem>, tree: &'a ElemChildren) -> Result<(), AllocError>
    ensures { OnOk result (map (λ e. e.now) names.new.items
        ≡ map (λ e. e.now) names.old.items ++ names_in tree.now) }
{
    for child in &tree.0 {
        add_names_of(names, child)?;
    }
    Ok(())
}

#[cycle(names)]
fn add_names_of<'a>(names: &mut Vec<&'a Elem>, child: &'a ElemChild) -> Result<(), AllocError>
    ensures { OnOk result (map (λ e. e.now) names.new.items
        ≡ map (λ e. e.now) names.old.items ++ child_names (child_view child.now)) }
{
    match child {
        ElemChild::Elem(elem) => {
            if is_name(elem) {
                names.push(elem)?;
                Ok(())
            } else {
                add_names(names, &elem.children)
            }
        }
        ElemChild::Text(_) => Ok(()),
        ElemChild::Markup(_) => Ok(()),
        ElemChild::Link { .. } => Ok(()),
        ElemChild::Transparent { .. } => Ok(()),
    }
}

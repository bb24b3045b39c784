//! The persons that a tree shows.
ghost use Rattle.std.specs.Prelude.{◌≡◌, ◌++◌, IfOk, OnOk};
ghost use Rattle.std.specs.List.{flat_map};
ghost use Rattle.value_trees.specs.ChildView.{child_view};
ghost use Rattle.value_trees.specs.Elements.{child_elements};
ghost use Rattle.rounds_names.specs.Persons.{named_by, persons};

use csl_base::elem::{Elem, ElemChild, ElemChildren, ElemMeta};
use csl_base::entry::Person;
use csl_base::seq::Seq;
use csl_base::taxonomy::NameVariable;
use std::alloc::{AllocError, Global};

/// The persons that its elements were rendered for, whether or not their names are written: an
/// element's come before those of the elements in it.
pub(crate) fn persons_of(alloc: Global, tree: &ElemChildren) -> Result<Seq<Person>, AllocError>
    ensures { IfOk result (λ found. found ≡ persons tree.now) }
{
    let mut found = Vec::new(alloc);
    add_tree(&mut found, tree)?;
    Ok(Seq::new(found))
}

fn add_persons(found: &mut Vec<Person>, persons: &[Person]) -> Result<(), AllocError>
    ensures { OnOk result (found.new.items ≡ found.old.items ++ persons.now) }
{
    for person in persons {
        found.push(person.clone()?)?;
    }
    Ok(())
}

fn add_variables(
    found: &mut Vec<Person>,
    variables: &[(Seq<Person>, NameVariable)],
) -> Result<(), AllocError>
    ensures { OnOk result (found.new.items ≡ found.old.items ++ flat_map (λ v. v.0) variables.now) }
{
    for variable in variables {
        add_persons(found, variable.0.as_slice())?;
    }
    Ok(())
}

fn add_named(found: &mut Vec<Person>, elem: &Elem) -> Result<(), AllocError>
    ensures { OnOk result (found.new.items ≡ found.old.items ++ named_by elem.now.meta) }
{
    match &elem.meta {
        Some(ElemMeta::Names(variables)) => add_variables(found, variables.as_slice()),
        _ => Ok(()),
    }
}

#[cycle(add)]
fn add_tree(found: &mut Vec<Person>, tree: &ElemChildren) -> Result<(), AllocError>
    ensures { OnOk result (found.new.items ≡ found.old.items ++ persons tree.now) }
{
    for child in &tree.0 {
        add_child(found, child)?;
    }
    Ok(())
}

#[cycle(add)]
fn add_child(found: &mut Vec<Person>, child: &ElemChild) -> Result<(), AllocError>
    ensures { OnOk result (found.new.items
        ≡ found.old.items ++ flat_map (λ e. named_by e.meta)
        (child_elements (child_view child.now))) }
{
    match child {
        ElemChild::Elem(elem) => {
            add_named(found, elem)?;
            add_tree(found, &elem.children)
        }
        ElemChild::Text(_)
        | ElemChild::Markup(_)
        | ElemChild::Link { .. }
        | ElemChild::Transparent { .. } => Ok(()),
    }
}

//! The first field of a full cite.
ghost use Rattle.std.specs.Prelude.{◌≡◌, ◌++◌, OnOk, IfOk};
ghost use Rattle.csl_writing.specs.FirstField.{spaced_behind, first_field_first};

use csl_base::elem::ElemChildren;
use std::alloc::{AllocError, Global};

// Adds a space to the last text, if there is one.
fn push_space(tree: &mut ElemChildren) -> Result<(), AllocError>
    ensures { OnOk result (tree.new ≡ spaced_behind tree.old) }
{
    match tree.last_text_mut() {
        Some(last) => last.text.push_str(" "),
        None => Ok(()),
    }
}

// The children of both trees, one behind the other.
fn followed_by(mut first: ElemChildren, mut rest: ElemChildren) -> Result<ElemChildren, AllocError>
    ensures { IfOk result (λ tree. tree ≡ first ++ rest) }
{
    first.0.append(&mut rest.0)?;
    Ok(first)
}

/// Moves the first child that stands for something to the front, with a space behind its last
/// text.
pub(crate) fn put_first_field_first(
    alloc: Global,
    mut tree: ElemChildren,
) -> Result<ElemChildren, AllocError>
    ensures { IfOk result (λ moved. moved ≡ first_field_first tree) }
{
    match tree.remove_any_meta() {
        Some(child) => {
            let mut first = ElemChildren::new(alloc);
            first.push(child)?;
            push_space(&mut first)?;
            followed_by(first, tree)
        }
        None => Ok(tree),
    }
}

//! What a caller learns of a tree that lent a place: its last text, its first names.
ghost use Rattle.std.specs.Prelude.{◌≡◌, None, Some};
ghost use Rattle.value_trees.specs.Tree.{last_text, find_elem, has_names};
ghost use Rattle.value_trees.specs.LastText.{put_last_text};
ghost use Rattle.value_trees.specs.FirstNames.{put_names};
ghost use Rattle.value_trees.specs.declared.elem.Elem.{Elem};
ghost use Rattle.value_sources.specs.declared.formatting.Formatted.{Formatted};
ghost use Rattle.value_sources.specs.declared.formatting.FontStyle.TheVariants as style;

use csl_base::elem::{Elem, ElemChild, ElemChildren, ElemMeta};
use csl_base::formatting::{FontStyle, Formatting};
use csl_base::seq::Seq;
use std::alloc::{AllocError, Global};

fn alone(alloc: Global, bytes: &str) -> Result<ElemChildren, AllocError> {
    let text = Formatting::default().add_text(String::from_str(alloc, bytes)?);
    Ok(ElemChildren(vec![in alloc; ElemChild::Text(text)]?))
}

/// A names element around these.
fn names(alloc: Global, children: ElemChildren) -> Result<ElemChildren, AllocError> {
    let names = ElemChild::Elem(Elem {
        children,
        display: None,
        meta: Some(ElemMeta::Names(Seq::new(Vec::new(alloc)))),
    });
    Ok(ElemChildren(vec![in alloc; names]?))
}

/// Writes one field. The contract shows what a caller learns of a tree that lent its last text.
fn make_last_text_italic(tree: &mut ElemChildren)
    ensures some { (f : Formatted) → last_text tree.old ≡ Some f
        → tree.new ≡ put_last_text tree.old
        (record f { formatting = record f.formatting { font_style = style.Italic } }) }
    ensures none { last_text tree.old ≡ None → tree.new ≡ tree.old }
{
    if let Some(text) = tree.last_text_mut() {
        text.formatting.font_style = FontStyle::Italic;
    }
}

/// The same of the first names.
fn strip_first_names(tree: &mut ElemChildren)
    ensures some { (e : Elem) → find_elem has_names tree.old ≡ Some e
        → tree.new ≡ put_names tree.old (record e { meta = None }) }
    ensures none { find_elem has_names tree.old ≡ None → tree.new ≡ tree.old }
{
    if let Some(elem) = tree.find_names_mut() {
        elem.meta = None;
    }
}

fn in_italics(tree: &ElemChildren) -> bool {
    match tree.last_text() {
        Some(text) => text.formatting.font_style == FontStyle::Italic,
        None => false,
    }
}

/// Whether the first names of the tree have a single child, and their last text is in italics.
fn are_left(tree: &ElemChildren) -> bool {
    match tree.find_names() {
        Some(names) => in_italics(&names.children) && names.children.0.len() == 1,
        None => false,
    }
}

/// Whether the outer of two names elements is the first one, and the last text is inside both.
///
/// # Errors
/// Where memory is refused.
pub fn writes_at_lent_places(alloc: Global) -> Result<bool, AllocError> {
    let inner = names(alloc, alone(alloc, "Roe")?)?;
    let mut tree = names(alloc, inner)?;
    make_last_text_italic(&mut tree);
    strip_first_names(&mut tree);
    let are_left = are_left(&tree);
    drop(tree);
    Ok(are_left)
}

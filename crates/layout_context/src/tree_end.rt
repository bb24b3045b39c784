//! Changes at the end of a tree, and what it shows.
ghost use Rattle.std.specs.Prelude.{
  ◌≡◌,
  ◌++◌,
  ◌≤◌,
  ◌∷◌,
  [],
  string_bytes,
  length,
  take,
  drop,
  map,
  IfOk,
  OnOk,
  OnErr,
  false,
};
ghost use Rattle.std.specs.Option.{option_map_or};
ghost use Rattle.std.specs.Str.{IsCharBoundary};
ghost use Rattle.value_trees.specs.Child.{elem, kids_of};
ghost use Rattle.value_trees.specs.ChildView.{child_view};
ghost use Rattle.value_trees.specs.LastTextStep.{last_child};
ghost use Rattle.value_trees.specs.Tree.{child_has_content};
ghost use Rattle.std.specs.List.{list_any};
ghost use Rattle.layout_context.specs.Steps.{ends_quoted, pulled, spaced};
ghost use Rattle.layout_context.specs.Quotes.{quotes_view};
ghost use Rattle.layout_context.specs.OpenFrames.{
  on_last_text,
  sole_text,
  kids_sole_text,
  on_sole_text,
  kids_on_sole_text,
  end_sole_text,
  on_end_sole_text,
  on_last_child,
  takes,
  extended,
  child_shows,
  shows_behind,
};
ghost use Rattle.layout_context.specs.Edits.{edited};

use crate::text::{ClosingQuotes, ends_in_space, is_visible_from, len_before, pull, trimmed_len};
use csl_base::elem::{Elem, ElemChild, ElemChildren, ElemMeta};
use csl_base::formatting::{Display, Formatting};
use csl_base::text::Text;
use std::alloc::{AllocError, Global};

/// What is done to the text before.
#[derive(Clone, Copy)]
pub(crate) enum Edit<'s> {
    /// The white space at its end goes.
    TrimEnd,
    /// This ending goes, where the text has it.
    TakeEnding(&'s str),
}

impl Edit<'_> {
    // How many bytes of the text stay.
    fn kept(&self, text: &str) -> usize
        ensures kept { take result text.now ≡ edited self.now text.now }
        ensures cut { IsCharBoundary text.now result }
    {
        match self {
            Edit::TrimEnd => trimmed_len(text),
            Edit::TakeEnding(ending) => len_before(text, ending),
        }
    }

    pub(crate) fn apply(&self, text: &mut String)
        ensures { string_bytes text.new ≡ edited self.now (string_bytes text.old) }
    {
        let kept = self.kept(text.as_str());
        text.truncate(kept);
    }
}

fn edit_text(text: &mut Text, edit: &Edit<'_>)
    ensures { text.new ≡ edited edit.now text.old }
{
    let kept = edit.kept(text.as_str());
    text.truncate(kept);
}

/// Edits the last text of a tree.
pub(crate) fn edit_last_text(tree: &mut ElemChildren, edit: &Edit<'_>)
    ensures { tree.new ≡ on_last_text (edited edit.now) tree.old }
{
    if let Some(last) = tree.last_text_mut() {
        edit_text(&mut last.text, edit);
    }
}

/// Adds a space to the last text of a tree, unless it ends with one.
pub(crate) fn add_space_to_tree(tree: &mut ElemChildren) -> Result<(), AllocError>
    ensures done { OnOk result (tree.new ≡ on_last_text spaced tree.old) }
    ensures len { length tree.new ≡ length tree.old }
{
    match tree.last_text_mut() {
        Some(last) => add_space_to_text(&mut last.text),
        None => Ok(()),
    }
}

fn add_space_to_text(text: &mut Text) -> Result<(), AllocError>
    ensures { OnOk result (text.new ≡ spaced text.old) }
{
    if ends_in_space(text.as_str()) {
        return Ok(());
    }
    text.push_str(" ")
}

fn pull_in_text(
    alloc: Global,
    text: &mut Text,
    quotes: ClosingQuotes<'_>,
    mark: &str,
) -> Result<bool, AllocError>
    ensures moved { IfOk result (λ moved. moved ≡ ends_quoted (quotes_view quotes.entry) text.old) }
    ensures text { OnOk result (text.new ≡ pulled (quotes_view quotes.entry) mark.now text.old) }
{
    let mut string = String::from_str(alloc, text.as_str())?;
    let moved = pull(&mut string, quotes, mark)?;
    *text = Text::new(string);
    Ok(moved)
}

#[cycle(pull)]
fn pull_in_child(
    alloc: Global,
    child: &mut ElemChild,
    quotes: ClosingQuotes<'_>,
    mark: &str,
) -> Result<bool, AllocError>
    ensures moved { IfOk result (λ moved. moved
        ≡ option_map_or (ends_quoted (quotes_view quotes.entry))
        (sole_text (child_view child.old)) false) }
    ensures child { OnOk result (child_view child.new
        ≡ on_sole_text (pulled (quotes_view quotes.entry) mark.now) (child_view child.old)) }
{
    match child {
        ElemChild::Text(text) => pull_in_text(alloc, &mut text.text, quotes, mark),
        ElemChild::Elem(elem) => pull_in_only(alloc, &mut elem.children, quotes, mark),
        ElemChild::Markup(_) => Ok(false),
        ElemChild::Link { .. } => Ok(false),
        ElemChild::Transparent { .. } => Ok(false),
    }
}

#[cycle(pull)]
fn pull_in_only(
    alloc: Global,
    tree: &mut ElemChildren,
    quotes: ClosingQuotes<'_>,
    mark: &str,
) -> Result<bool, AllocError>
    ensures moved { IfOk result (λ moved. moved
        ≡ option_map_or (ends_quoted (quotes_view quotes.entry))
        (kids_sole_text (kids_of tree.old)) false) }
    ensures tree { OnOk result (kids_of tree.new
        ≡ kids_on_sole_text (pulled (quotes_view quotes.entry) mark.now) (kids_of tree.old)) }
{
    if tree.0.len() != 1 {
        return Ok(false);
    }
    pull_in_child(alloc, &mut tree.0[0], quotes, mark)
}

/// Puts a mark before the closing quote at the end of a tree. Returns whether there is one.
pub(crate) fn pull_in_tree(
    alloc: Global,
    tree: &mut ElemChildren,
    quotes: ClosingQuotes<'_>,
    mark: &str,
) -> Result<bool, AllocError>
    ensures moved { IfOk result (λ moved. moved
        ≡ option_map_or (ends_quoted (quotes_view quotes.entry)) (end_sole_text tree.old) false) }
    ensures tree { OnOk result (tree.new
        ≡ on_end_sole_text (pulled (quotes_view quotes.entry) mark.now) tree.old) }
    ensures len { length tree.new ≡ length tree.old }
{
    let len = tree.0.len();
    if len == 0 {
        return Ok(false);
    }
    pull_in_child(alloc, &mut tree.0[len - 1], quotes, mark)
}

/// How many children a tree has.
pub(crate) fn count(tree: &ElemChildren) -> usize
    ensures { result ≡ length tree.now }
{
    tree.0.len()
}

/// The children of a tree from a place on.
pub(crate) fn children_from(tree: &ElemChildren, start: usize) -> &[ElemChild]
    requires { start ≤ length tree.now }
    ensures { map child_view result.now ≡ drop start tree.now }
{
    let (_, later) = tree.0.as_slice().split_at(start);
    later
}

/// Keeps the first `len` children of a tree.
pub(crate) fn truncate(tree: &mut ElemChildren, len: usize)
    ensures { tree.new ≡ take len tree.old }
{
    tree.0.truncate(len);
}

/// Adds a child at the end of a tree, which stays as it is where memory is refused.
pub(crate) fn push_child(tree: &mut ElemChildren, child: ElemChild) -> Result<(), AllocError>
    ensures done { OnOk result (tree.new ≡ tree.old ++ child_view child ∷ []) }
    ensures refused { OnErr result (tree.new ≡ tree.old) }
{
    tree.0.push(child)?;
    Ok(())
}

/// Makes the children of a tree from a place on those of one element. Where memory is refused, they
/// may be lost.
pub(crate) fn wrap(
    tree: &mut ElemChildren,
    start: usize,
    display: Option<Display>,
    meta: Option<ElemMeta>,
) -> Result<(), AllocError>
    requires { start ≤ length tree.old }
    ensures done { OnOk result (tree.new
        ≡ take start tree.old ++ elem (kids_of (drop start tree.old)) display meta ∷ []) }
    ensures kept { start ≤ length tree.new }
{
    let children = split_off(tree, start)?;
    push_child(
        tree,
        ElemChild::Elem(Elem {
            children,
            display,
            meta,
        }),
    )
}

/// Takes the children of a tree from a place on, into a tree of their own.
pub(crate) fn split_off(tree: &mut ElemChildren, start: usize) -> Result<ElemChildren, AllocError>
    requires { start ≤ length tree.old }
    ensures kept { OnOk result (tree.new ≡ take start tree.old) }
    ensures taken { IfOk result (λ later. later ≡ drop start tree.old) }
    ensures refused { OnErr result (tree.new ≡ tree.old) }
{
    Ok(ElemChildren(tree.0.split_off(start)?))
}

// Whether a child is a text in this formatting.
fn takes(child: &ElemChild, formatting: Formatting) -> bool
    ensures { result ≡ takes formatting (child_view child.now) }
{
    match child {
        ElemChild::Text(text) => text.formatting == formatting,
        ElemChild::Elem(_) => false,
        ElemChild::Markup(_) => false,
        ElemChild::Link { .. } => false,
        ElemChild::Transparent { .. } => false,
    }
}

/// Whether the last child is a text in this formatting.
pub(crate) fn ends_in(children: &[ElemChild], formatting: Formatting) -> bool
    ensures { result ≡ option_map_or (takes formatting)
        (last_child (map child_view children.now)) false }
{
    match children.last() {
        Some(child) => takes(child, formatting),
        None => false,
    }
}

// Puts `more` at the end of a child that is a text.
fn extend(child: &mut ElemChild, more: &str) -> Result<(), AllocError>
    ensures { OnOk result (child_view child.new ≡ extended more.now (child_view child.old)) }
{
    match child {
        ElemChild::Text(text) => text.text.push_str(more),
        ElemChild::Elem(_) => Ok(()),
        ElemChild::Markup(_) => Ok(()),
        ElemChild::Link { .. } => Ok(()),
        ElemChild::Transparent { .. } => Ok(()),
    }
}

/// Puts `more` at the end of the last child, where that is a text.
pub(crate) fn extend_last(tree: &mut ElemChildren, more: &str) -> Result<(), AllocError>
    ensures done { OnOk result (tree.new ≡ on_last_child (extended more.now) tree.old) }
    ensures len { length tree.new ≡ length tree.old }
{
    let len = tree.0.len();
    if len == 0 {
        return Ok(());
    }
    extend(&mut tree.0[len - 1], more)
}

// Whether a child shows something behind the first `offset` bytes of its text.
fn child_shows(child: &ElemChild, offset: usize) -> bool
    ensures { result ≡ child_shows offset (child_view child.now) }
{
    match child {
        ElemChild::Text(text) => is_visible_from(text.text.as_str(), offset),
        ElemChild::Elem(elem) => elem.children.has_content(),
        ElemChild::Markup(_) => true,
        ElemChild::Link { .. } => true,
        ElemChild::Transparent { .. } => true,
    }
}

fn any_has_content(children: &[ElemChild]) -> bool
    ensures { result ≡ list_any (λ c. child_has_content (child_view c)) children.now }
{
    children.iter().any(|child| child.has_content())
}

/// Whether some child shows something, the first one behind `offset` bytes of its text.
pub(crate) fn shows(children: &[ElemChild], offset: usize) -> bool
    ensures { result ≡ shows_behind offset (map child_view children.now) }
{
    if children.len() == 0 {
        return false;
    }
    let (_, later) = children.split_at(1);
    child_shows(&children[0], offset) || any_has_content(later)
}

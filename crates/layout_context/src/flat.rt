//! Open frames whose children lie one behind the other.
ghost use Rattle.std.specs.Prelude.{
  ◌≡◌,
  ◌+◌,
  ◌-◌,
  ◌<◌,
  ◌≤◌,
  [],
  ◌∷◌,
  ◌++◌,
  length,
  take,
  drop,
  map,
  IfOk,
  OnOk,
  OnErr,
  Some,
  None,
  is_none,
  ◌&&◌,
  slice_get,
  option_map,
  false,
};
ghost use Rattle.std.specs.Option.{option_map_or, option_and_then};
ghost use Rattle.value_trees.specs.Child.{text, elem, kids_of};
ghost use Rattle.value_trees.specs.ChildView.{child_view};
ghost use Rattle.value_trees.specs.Simplify.{join_last};
ghost use Rattle.value_trees.specs.Tree.{last_text};
ghost use Rattle.layout_context.specs.Cuts.{cut};
ghost use Rattle.layout_context.specs.Edits.{edited};
ghost use Rattle.layout_context.specs.OpenFrames.{
  on_last_text,
  end_sole_text,
  on_end_sole_text,
  filled,
  on_filled,
  top,
  on_top,
  below,
  committed,
  shows_behind,
};
ghost use Rattle.layout_context.specs.Quotes.{quotes_view};
ghost use Rattle.layout_context.specs.Steps.{ends_quoted, pulled, spaced};

use crate::text::ClosingQuotes;
use crate::tree_end::{
    Edit, add_space_to_tree, children_from, count, edit_last_text, ends_in, extend_last,
    pull_in_tree, push_child, shows, split_off, truncate, wrap,
};
use csl_base::elem::{ElemChild, ElemChildren, ElemMeta};
use csl_base::formatting::{Display, Formatted, Formatting};
use csl_base::text::Text;
use std::alloc::{AllocError, Global};
use std::marker::Model;

/// Trees that are open, one inside the other; there is always one. Contracts see the list of them,
/// from the bottom to the top.
#[derive(Drop)]
pub(crate) struct FlatFrames {
    // The children of all frames, those of the bottom first.
    children: ElemChildren,
    // How many children each frame below the top has.
    counts: Vec<usize>,
    // How many these are together: where the top frame begins.
    start: usize,
}

impl Model for FlatFrames {
    ghost use Rattle.std.specs.Prelude.{List, ◌≡◌, ◌≤◌, ◌<◌, ◌+◌, ◌^◌, length, vec_len};
    ghost use Rattle.std.specs.List.{sum};
    ghost use Rattle.std.specs.Coded.{coded_list};
    ghost use Rattle.value_trees.specs.Child.{Child, coded_child};
    ghost use Rattle.layout_context.specs.Cuts.{cut};

    ghost Value = { List (List Child) };

    ghost coded = { coded_list (coded_list coded_child) };

    ghost view = { λ frames. cut frames.counts.items frames.children };

    ghost invariant = { λ frames. (frames.start ≡ sum frames.counts.items)
        × (frames.start ≤ length frames.children) × (vec_len frames.counts + 1 < 2 ^ 64) };
}

impl FlatFrames {
    /// One frame without children, in the memory of these lists.
    pub(crate) fn within(mut children: Vec<ElemChild>, mut counts: Vec<usize>) -> FlatFrames
        ensures { result ≡ [] ∷ [] }
    {
        children.clear();
        counts.clear();
        FlatFrames {
            children: ElemChildren(children),
            counts,
            start: 0,
        }
    }

    /// How many frames there are, at least one.
    pub(crate) fn len(&self) -> usize
        ensures len { result ≡ length self.now }
        ensures never_empty { 0 < result }
    {
        self.counts.len() + 1
    }

    /// Puts a frame without children upon the others.
    ///
    /// # Errors
    ///
    /// Where memory is refused, or the frames can't be counted any more: they stay as they are.
    pub(crate) fn open(&mut self) -> Result<(), AllocError>
        ensures opened { OnOk result (self.new ≡ self.old ++ [] ∷ []) }
        ensures refused { OnErr result (self.new ≡ self.old) }
    {
        if self.len() == usize::MAX {
            return Err(AllocError);
        }
        let end = count(&self.children);
        self.counts.push(end - self.start)?;
        self.start = end;
        Ok(())
    }

    /// Closes the top frame into the one below, which gets what it gives: an element, where it is
    /// set off or stands for something, and else its children.
    ///
    /// # Errors
    ///
    /// Where memory is refused: there are as many frames as before.
    pub(crate) fn close(
        &mut self,
        display: Option<Display>,
        meta: Option<ElemMeta>,
    ) -> Result<(), AllocError>
        requires { 1 < length self.old }
        ensures done { OnOk result (self.new ≡ committed display meta self.old) }
        ensures refused { OnErr result (length self.new ≡ length self.old) }
    {
        if gives_children(&display, &meta) {
            self.join_top();
            return Ok(());
        }
        self.wrap_top(display, meta)?;
        self.join_top();
        Ok(())
    }

    // The children of the top frame go to the one below.
    fn join_top(&mut self)
        requires { 1 < length self.old }
        ensures { self.new ≡ committed None None self.old }
    {
        if let Some(count) = self.counts.pop() {
            self.start -= count;
        }
    }

    // The children of the top frame become those of one element.
    fn wrap_top(
        &mut self,
        display: Option<Display>,
        meta: Option<ElemMeta>,
    ) -> Result<(), AllocError>
        ensures done { OnOk result
            (self.new ≡ on_top (λ cs. elem (kids_of cs) display meta ∷ []) self.old) }
        ensures height { length self.new ≡ length self.old }
    {
        wrap(&mut self.children, self.start, display, meta)
    }

    /// Drops the top frame with its children.
    pub(crate) fn discard(&mut self)
        requires { 1 < length self.old }
        ensures { self.new ≡ below self.old }
    {
        truncate(&mut self.children, self.start);
        if let Some(count) = self.counts.pop() {
            self.start -= count;
        }
    }

    /// Edits the last text of the topmost frame that has children.
    pub(crate) fn edit_filled(&mut self, edit: &Edit<'_>)
        ensures done { self.new ≡ on_filled (on_last_text (edited edit.now)) self.old }
        ensures height { length self.new ≡ length self.old }
    {
        edit_last_text(&mut self.children, edit);
    }

    /// Puts a mark before the closing quote at the end of the topmost frame that has children.
    /// Returns whether there is one.
    ///
    /// # Errors
    ///
    /// Where memory is refused: there are as many frames as before.
    pub(crate) fn pull_in_filled(
        &mut self,
        alloc: Global,
        quotes: ClosingQuotes<'_>,
        mark: &str,
    ) -> Result<bool, AllocError>
        ensures moved { IfOk result (λ moved. moved
            ≡ option_map_or (ends_quoted (quotes_view quotes.entry))
            (option_and_then end_sole_text (filled self.old)) false) }
        ensures done { OnOk result (self.new
            ≡ on_filled (on_end_sole_text (pulled (quotes_view quotes.entry) mark.now)) self.old) }
        ensures height { length self.new ≡ length self.old }
    {
        pull_in_tree(alloc, &mut self.children, quotes, mark)
    }

    /// Adds a space to the last text of the top frame, unless it ends with one.
    ///
    /// # Errors
    ///
    /// Where memory is refused: there are as many frames as before.
    pub(crate) fn space_last_text(&mut self) -> Result<(), AllocError>
        ensures done { OnOk result (self.new ≡ on_top (on_last_text spaced) self.old) }
        ensures height { length self.new ≡ length self.old }
    {
        if self.start == count(&self.children) {
            return Ok(());
        }
        add_space_to_tree(&mut self.children)
    }

    /// Adds a child to the top frame.
    ///
    /// # Errors
    ///
    /// Where memory is refused: there are as many frames as before.
    pub(crate) fn push_child(&mut self, child: ElemChild) -> Result<(), AllocError>
        ensures done { OnOk result
            (self.new ≡ on_top (λ cs. cs ++ child_view child ∷ []) self.old) }
        ensures height { length self.new ≡ length self.old }
    {
        push_child(&mut self.children, child)
    }

    /// Adds a text to the top frame, joined to the last child where that is a text of its
    /// formatting.
    ///
    /// # Errors
    ///
    /// Where memory is refused: there are as many frames as before.
    pub(crate) fn join_text(
        &mut self,
        alloc: Global,
        more: &str,
        formatting: Formatting,
    ) -> Result<(), AllocError>
        ensures done { OnOk result (self.new
            ≡ on_top (λ cs. join_last cs
            (text (record { text = more.now; formatting = formatting })))
            self.old) }
        ensures height { length self.new ≡ length self.old }
    {
        if ends_in(self.top(), formatting) {
            return extend_last(&mut self.children, more);
        }
        let text = Text::copied(alloc, more)?;
        push_child(
            &mut self.children,
            ElemChild::Text(Formatted { text, formatting }),
        )
    }

    // The children of the top frame.
    fn top(&self) -> &[ElemChild]
        ensures { Some (map child_view result.now) ≡ top self.now }
    {
        children_from(&self.children, self.start)
    }

    /// Whether the top frame shows something, its first child behind `offset` bytes of its text.
    pub(crate) fn top_shows(&self, offset: usize) -> bool
        ensures { result ≡ option_map_or (shows_behind offset) (top self.now) false }
    {
        shows(self.top(), offset)
    }

    /// The last text of the top frame.
    pub(crate) fn last_text(&self) -> Option<&Formatted>
        ensures { option_map (λ f. f.now) result ≡ option_and_then last_text (top self.now) }
    {
        if self.start == count(&self.children) {
            return None;
        }
        self.children.last_text()
    }

    /// The bottom frame; those above it are dropped.
    pub(crate) fn finish(self) -> ElemChildren
        ensures { slice_get self 0 ≡ Some result }
    {
        let mut children = self.children;
        keep_bottom(&mut children, &self.counts);
        children
    }

    /// The bottom frame, as a tree of its own, and the memory of the lists.
    ///
    /// # Errors
    ///
    /// Where memory is refused.
    pub(crate) fn finish_apart(
        self,
    ) -> Result<(ElemChildren, Vec<ElemChild>, Vec<usize>), AllocError>
        ensures { IfOk result (λ apart. slice_get self 0 ≡ Some apart.0) }
    {
        let FlatFrames {
            mut children,
            counts,
            start: _,
        } = self;
        keep_bottom(&mut children, &counts);
        let tree = split_off(&mut children, 0)?;
        Ok((tree, children.into_vec(), counts))
    }
}

// Keeps the children of the bottom frame, where those below the top have so many.
fn keep_bottom(children: &mut ElemChildren, counts: &[usize])
    ensures { slice_get (cut counts.now children.old) 0 ≡ Some children.new }
{
    if let Some(count) = counts.first() {
        truncate(children, *count);
    }
}

// Whether a frame that is closed so gives its children as they are.
fn gives_children(display: &Option<Display>, meta: &Option<ElemMeta>) -> bool
    ensures { result ≡ is_none display.now && is_none meta.now }
{
    display.is_none() && meta.is_none()
}

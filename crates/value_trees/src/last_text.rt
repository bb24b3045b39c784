//! The last text of a tree, for writing.
ghost use Rattle.std.specs.Prelude.{◌≡◌, List, option_map, is_some, None, Some, true};
ghost use Rattle.std.specs.Borrow.{Lends, LendsIf, sem};
ghost use Rattle.value_trees.specs.Child.{Child};
ghost use Rattle.value_trees.specs.ChildView.{child_view};
ghost use Rattle.value_trees.specs.Tree.{last_text};
ghost use Rattle.value_trees.specs.Nested.{child_is_elem, inner, with_children};
ghost use Rattle.value_trees.specs.LastText.{put_last_text};
ghost use Rattle.value_trees.specs.LastTextStep.{
  own_text,
  with_text,
  ends_in_elem,
  last_child,
  put_last_child,
  end_text,
  put_end_text,
};
ghost use Rattle.value_sources.specs.declared.formatting.Formatted.{Formatted};
ghost use Rattle.value_sources.specs.contracts.formatting.Formatted as formatted_;
ghost use Rattle.value_trees.specs.contracts.elem.ElemChild as child_;
ghost use Rattle.value_trees.specs.contracts.elem.ElemChildren as children_;

use crate::elem::{ElemChild, ElemChildren};
use value_sources::formatting::Formatted;

impl ElemChildren {
    /// The last text, for writing: the last child, if it is a text, or the last text of the last
    /// child, if that is an element. `None` where the tree ends in anything else. A write leaves
    /// the rest of the tree as it is, and is what `last_text` gives next (`last_text_laws`).
    pub fn last_text_mut(&mut self) -> Option<&mut Formatted>
        ensures* writes_back { sem 𝓛
            (LendsIf children_.the_row formatted_.the_row self.entry result
            (put_last_text self.old) self.old) }
        ensures value { option_map (λ f. f.now) result ≡ last_text self.old }
    {
        last_text_mut(self)
    }
}

/// What a write of the last text does: it is read again, it changes nothing where it writes what
/// stood there, and nothing where there is no last text.
pub fn last_text_laws()
    ensures read_after_write { (cs : List Child) (w : Formatted) → is_some (last_text cs) ≡ true
        → last_text (put_last_text cs w) ≡ Some w }
    ensures write_what_is_read { (cs : List Child) (f : Formatted) → last_text cs ≡ Some f
        → put_last_text cs f ≡ cs }
    ensures no_text_no_change { (cs : List Child) (w : Formatted) → last_text cs ≡ None
        → put_last_text cs w ≡ cs }
{}

// The contract of this recursion is proved by hand, along its statements. The steps are functions
// of their own, so that their proofs are found.
fn last_text_mut(tree: &mut ElemChildren) -> Option<&mut Formatted>
    ensures* writes_back { sem 𝓛
        (LendsIf children_.the_row formatted_.the_row tree.entry result
        (put_last_text tree.old) tree.old) }
    ensures value { option_map (λ f. f.now) result ≡ last_text tree.old }
{
    if ends_in_elem(tree) {
        last_text_mut(last_child_mut(tree).children_mut())
    } else {
        text_at_end(tree)
    }
}

fn ends_in_elem(tree: &mut ElemChildren) -> bool
    ensures { (tree.new ≡ tree.old) × (result ≡ ends_in_elem tree.old) }
{
    let len = tree.0.len();
    if len == 0 {
        return false;
    }
    tree.0[len - 1].is_elem()
}

fn last_child_mut(tree: &mut ElemChildren) -> &mut ElemChild
    requires { ends_in_elem tree.old ≡ true }
    ensures* writes_back { sem 𝓛
        (Lends children_.the_row child_.the_row tree.entry result (put_last_child tree.old)) }
    ensures value { Some (child_view result.now) ≡ last_child tree.old }
{
    let len = tree.0.len();
    &mut tree.0[len - 1]
}

fn text_at_end(tree: &mut ElemChildren) -> Option<&mut Formatted>
    ensures* writes_back { sem 𝓛
        (LendsIf children_.the_row formatted_.the_row tree.entry result
        (put_end_text tree.old) tree.old) }
    ensures value { option_map (λ f. f.now) result ≡ end_text tree.old }
{
    let len = tree.0.len();
    if len == 0 {
        return None;
    }
    tree.0[len - 1].text_mut()
}

impl ElemChild {
    fn is_elem(&self) -> bool
        ensures { result ≡ child_is_elem (child_view self.now) }
    {
        match self {
            ElemChild::Elem(_) => true,
            ElemChild::Text(_)
            | ElemChild::Markup(_)
            | ElemChild::Link { .. }
            | ElemChild::Transparent { .. } => false,
        }
    }

    pub(crate) fn children_mut(&mut self) -> &mut ElemChildren
        requires { child_is_elem (child_view self.old) ≡ true }
        ensures* writes_back { sem 𝓛
            (Lends child_.the_row children_.the_row self.entry result (with_children self.old)) }
        ensures value { result.now ≡ inner (child_view self.old) }
    {
        match self {
            ElemChild::Elem(elem) => &mut elem.children,
            _ => unreachable!(),
        }
    }

    fn text_mut(&mut self) -> Option<&mut Formatted>
        ensures* writes_back { sem 𝓛
            (LendsIf child_.the_row formatted_.the_row self.entry result
            (with_text self.old) self.old) }
        ensures value { option_map (λ f. f.now) result ≡ own_text (child_view self.old) }
    {
        match self {
            ElemChild::Text(text) => Some(text),
            ElemChild::Elem(_)
            | ElemChild::Markup(_)
            | ElemChild::Link { .. }
            | ElemChild::Transparent { .. } => None,
        }
    }
}

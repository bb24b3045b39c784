//! The first element of meta Names in a tree, for writing.
//!
//! A holder is a child that is such an element, or in which one stands.
ghost use Rattle.std.specs.Prelude.{◌≡◌, List, option_map, is_some, None, Some, true};
ghost use Rattle.std.specs.Borrow.{Lends, LendsIf, sem};
ghost use Rattle.value_trees.specs.Child.{Child};
ghost use Rattle.value_trees.specs.ChildView.{child_view};
ghost use Rattle.value_trees.specs.Tree.{find_elem, has_names};
ghost use Rattle.value_trees.specs.FirstNames.{put_names};
ghost use Rattle.value_trees.specs.FirstNamesStep.{
  elem_without_names,
  first_holder,
  put_holder_child,
  holder_index,
  names_lie_deeper,
  own_elem,
  with_elem,
  holder_elem,
  put_holder_elem,
};
ghost use Rattle.value_trees.specs.declared.elem.Elem.{Elem};
ghost use Rattle.value_trees.specs.contracts.elem.Elem as elem_;
ghost use Rattle.value_trees.specs.contracts.elem.ElemChild as child_;
ghost use Rattle.value_trees.specs.contracts.elem.ElemChildren as children_;

use crate::elem::{Elem, ElemChild, ElemChildren};

impl ElemChildren {
    /// The first element in preorder whose meta is Names, for writing; the one that `find_names`
    /// gives. `None` where there is none. A write leaves the rest of the tree as it is, and is what
    /// `find_names` gives next, if its meta is still Names (`first_names_laws`).
    pub fn find_names_mut(&mut self) -> Option<&mut Elem>
        ensures* writes_back { sem 𝓛
            (LendsIf children_.the_row elem_.the_row self.entry result
            (put_names self.old) self.old) }
        ensures value { option_map (λ e. e.now) result ≡ find_elem has_names self.old }
    {
        find_names_mut(self)
    }
}

/// What a write of the first element of meta Names does: it is read again if its own meta is Names,
/// it changes nothing where it writes what stood there, and nothing where there is no such element.
pub fn first_names_laws()
    ensures read_after_write { (cs : List Child) (w : Elem)
        → is_some (find_elem has_names cs) ≡ true
        → has_names w ≡ true → find_elem has_names (put_names cs w) ≡ Some w }
    ensures write_what_is_read { (cs : List Child) (e : Elem) → find_elem has_names cs ≡ Some e
        → put_names cs e ≡ cs }
    ensures no_names_no_change { (cs : List Child) (w : Elem) → find_elem has_names cs ≡ None
        → put_names cs w ≡ cs }
{}

// The contract of this recursion is proved by hand, along its statements. The steps are functions
// of their own, so that their proofs are found.
fn find_names_mut(tree: &mut ElemChildren) -> Option<&mut Elem>
    ensures* writes_back { sem 𝓛
        (LendsIf children_.the_row elem_.the_row tree.entry result (put_names tree.old) tree.old) }
    ensures value { option_map (λ e. e.now) result ≡ find_elem has_names tree.old }
{
    if names_lie_deeper(tree) {
        find_names_mut(holder_mut(tree).children_mut())
    } else {
        holder_elem_mut(tree)
    }
}

/// The index of the first holder; the number of children where there is none.
fn holder_index(tree: &ElemChildren) -> usize
    ensures { result ≡ holder_index tree.now }
{
    for i in 0..tree.0.len() {
        if tree.0[i].find_names().is_some() {
            return i;
        }
    }
    tree.0.len()
}

fn names_lie_deeper(tree: &mut ElemChildren) -> bool
    ensures { (tree.new ≡ tree.old) × (result ≡ names_lie_deeper tree.old) }
{
    let n = holder_index(tree);
    if n >= tree.0.len() {
        return false;
    }
    tree.0[n].is_elem_without_names()
}

fn holder_mut(tree: &mut ElemChildren) -> &mut ElemChild
    requires { names_lie_deeper tree.old ≡ true }
    ensures* writes_back { sem 𝓛
        (Lends children_.the_row child_.the_row tree.entry result (put_holder_child tree.old)) }
    ensures value { Some (child_view result.now) ≡ first_holder tree.old }
{
    let n = holder_index(tree);
    &mut tree.0[n]
}

fn holder_elem_mut(tree: &mut ElemChildren) -> Option<&mut Elem>
    ensures* writes_back { sem 𝓛
        (LendsIf children_.the_row elem_.the_row tree.entry result
        (put_holder_elem tree.old) tree.old) }
    ensures value { option_map (λ e. e.now) result ≡ holder_elem tree.old }
{
    let n = holder_index(tree);
    if n >= tree.0.len() {
        return None;
    }
    tree.0[n].elem_mut()
}

impl ElemChild {
    fn is_elem_without_names(&self) -> bool
        ensures { result ≡ elem_without_names (child_view self.now) }
    {
        match self {
            ElemChild::Elem(elem) => !elem.has_names(),
            ElemChild::Text(_)
            | ElemChild::Markup(_)
            | ElemChild::Link { .. }
            | ElemChild::Transparent { .. } => false,
        }
    }

    fn elem_mut(&mut self) -> Option<&mut Elem>
        ensures* writes_back { sem 𝓛
            (LendsIf child_.the_row elem_.the_row self.entry result (with_elem self.old) self.old) }
        ensures value { option_map (λ e. e.now) result ≡ own_elem (child_view self.old) }
    {
        match self {
            ElemChild::Elem(elem) => Some(elem),
            ElemChild::Text(_)
            | ElemChild::Markup(_)
            | ElemChild::Link { .. }
            | ElemChild::Transparent { .. } => None,
        }
    }
}

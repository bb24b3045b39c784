//! Elements found by a test, and by their meta.
ghost use Rattle.std.specs.Prelude.{◌≡◌, Bool, option_map};
ghost use Rattle.std.specs.Borrow.{Bor};
ghost use Rattle.std.specs.List.{find, position, position_or_len, remove};
ghost use Rattle.value_trees.specs.ChildView.{child_view};
ghost use Rattle.value_trees.specs.Elements.{child_elements, elements, IsFirstAccepted};
ghost use Rattle.value_trees.specs.Tree.{find_elem, child_find};
ghost use Rattle.value_trees.specs.Metas.{has_meta, child_has_any_meta};
ghost use Rattle.value_trees.specs.declared.elem.Elem.{Elem};

use crate::elem::{Elem, ElemChild, ElemChildren, ElemMeta};

impl ElemChildren {
    /// The first element in preorder that the test accepts: an element comes before those in it,
    /// and those in it before those after it. `None` where it accepts none. The test has to accept
    /// any element as its argument. `found` gives the answer of tests that answer equal elements
    /// alike.
    pub fn find_elem_by<F: Fn(&Elem) -> bool>(&self, test: F) -> Option<&Elem>
        requires { F.IsAlwaysCallable test }
        ensures found { (p : Elem → Bool)
            → ((e : Bor Elem) (b : Bool) → F.post test e b → b ≡ p e.now)
            → option_map (λ e. e.now) result ≡ find_elem p self.now }
        ensures accepted { IsFirstAccepted (F.post test) (elements self.now)
            (option_map (λ e. e.now) result) }
    {
        find_in_tree(self, &test)
    }

    /// The first element in preorder whose meta is equal to the given one. `None` where no
    /// element's is.
    pub fn find_meta(&self, meta: &ElemMeta) -> Option<&Elem>
        ensures { option_map (λ e. e.now) result ≡ find_elem (has_meta meta.now) self.now }
    {
        find_in_tree(self, &|elem: &Elem| elem.has_meta(meta))
    }

    /// Takes out the first child that is an element with some meta, and gives it; the children
    /// after it move up. Elements further in are left where they are. `None` where no child is such
    /// an element; then nothing changes. It takes no memory.
    pub fn remove_any_meta(&mut self) -> Option<ElemChild>
        ensures value { option_map child_view result ≡ find child_has_any_meta self.old }
        ensures rest { self.new ≡ remove self.old (position_or_len child_has_any_meta self.old) }
    {
        let place = first_with_meta(self.0.as_slice())?;
        Some(self.0.remove(place))
    }
}

#[cycle(find)]
fn find_in_tree<'a, F: Fn(&Elem) -> bool>(tree: &'a ElemChildren, test: &F) -> Option<&'a Elem>
    requires { F.IsAlwaysCallable test.now }
    ensures found { (p : Elem → Bool)
        → ((e : Bor Elem) (b : Bool) → F.post test.now e b → b ≡ p e.now)
        → option_map (λ e. e.now) result ≡ find_elem p tree.now }
    ensures accepted { IsFirstAccepted (F.post test.now) (elements tree.now)
        (option_map (λ e. e.now) result) }
{
    for child in &tree.0 {
        if let Some(elem) = find_in_child(child, test) {
            return Some(elem);
        }
    }
    None
}

#[cycle(find)]
fn find_in_child<'a, F: Fn(&Elem) -> bool>(child: &'a ElemChild, test: &F) -> Option<&'a Elem>
    requires { F.IsAlwaysCallable test.now }
    ensures found { (p : Elem → Bool)
        → ((e : Bor Elem) (b : Bool) → F.post test.now e b → b ≡ p e.now)
        → option_map (λ e. e.now) result ≡ child_find p (child_view child.now) }
    ensures accepted { IsFirstAccepted (F.post test.now) (child_elements (child_view child.now))
        (option_map (λ e. e.now) result) }
{
    match child {
        ElemChild::Elem(elem) => {
            if test(elem) {
                Some(elem)
            } else {
                find_in_tree(&elem.children, test)
            }
        }
        ElemChild::Text(_)
        | ElemChild::Markup(_)
        | ElemChild::Link { .. }
        | ElemChild::Transparent { .. } => None,
    }
}

/// The index of the first child that is an element with some meta.
fn first_with_meta(children: &[ElemChild]) -> Option<usize>
    ensures { result ≡ position (λ c. child_has_any_meta (child_view c)) children.now }
{
    children.iter().position(|child| child.has_any_meta())
}

impl ElemChild {
    fn has_any_meta(&self) -> bool
        ensures { result ≡ child_has_any_meta (child_view self.now) }
    {
        match self {
            ElemChild::Elem(elem) => elem.meta.is_some(),
            ElemChild::Text(_)
            | ElemChild::Markup(_)
            | ElemChild::Link { .. }
            | ElemChild::Transparent { .. } => false,
        }
    }
}

impl Elem {
    fn has_meta(&self, meta: &ElemMeta) -> bool
        ensures { result ≡ has_meta meta.now self.now }
    {
        match &self.meta {
            Some(own) => own == meta,
            None => false,
        }
    }
}

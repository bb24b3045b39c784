//! What equality of trees means.
ghost use Rattle.std.specs.Prelude.{◌≡◌, List};
ghost use Rattle.std.specs.Bool.{Decides};
ghost use Rattle.value_trees.specs.Child.{Child};
ghost use Rattle.value_trees.specs.SameTree.{same_trees};
ghost use Rattle.value_trees.specs.SameElem.{same_child, same_elem};
ghost use Rattle.value_trees.specs.declared.elem.Elem.{Elem};
ghost use Rattle.value_trees.specs.declared.elem.ElemChild.{ElemChild};

/// A law: `==` of trees, of children and of elements is true exactly of equal values.
pub fn equality_laws()
    ensures trees { (a : List Child) → (b : List Child) → Decides (same_trees a b) (a ≡ b) }
    ensures children { (a : ElemChild) → (b : ElemChild) → Decides (same_child a b) (a ≡ b) }
    ensures elements { (a : Elem) → (b : Elem) → Decides (same_elem a b) (a ≡ b) }
{}

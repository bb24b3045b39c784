//! Adjacent texts of equal formatting become one.
ghost use Rattle.std.specs.Prelude.{◌≡◌, ◌++◌, ◌∷◌, [], List, OnOk, IfOk, true, false, map};
ghost use Rattle.value_trees.specs.Child.{Child, kids_of};
ghost use Rattle.value_trees.specs.ChildView.{child_view};
ghost use Rattle.value_trees.specs.declared.elem.ElemChild.{ElemChild};
ghost use Rattle.value_trees.specs.Tree.{plain};
ghost use Rattle.value_trees.specs.Simplify.{
  simplified,
  child_simple,
  level_joined,
  join_last,
  joins,
  joined,
  Apart,
};

use crate::elem::{ElemChild, ElemChildren};
use std::alloc::AllocError;
use std::mem;

impl ElemChildren {
    /// Joins adjacent texts of equal formatting at every depth, and changes nothing else.
    ///
    /// Fails where memory is refused. Texts of the tree may be lost then, so it may only be
    /// dropped.
    #[cycle(simplify)]
    pub fn simplify_children(&mut self) -> Result<(), AllocError>
        ensures { OnOk result (self.new ≡ simplified self.old) }
    {
        for i in 0..self.0.len() {
            self.0[i].simplify()?;
        }
        join_adjacent(self)
    }
}

impl ElemChild {
    /// Joins adjacent texts of equal formatting inside an element.
    #[cycle(simplify)]
    fn simplify(&mut self) -> Result<(), AllocError>
        ensures { OnOk result (child_view self.new ≡ child_simple (child_view self.old)) }
    {
        match self {
            ElemChild::Elem(e) => e.children.simplify_children(),
            ElemChild::Text(_)
            | ElemChild::Markup(_)
            | ElemChild::Link { .. }
            | ElemChild::Transparent { .. } => Ok(()),
        }
    }

    /// Whether both are texts, of equal formatting.
    fn joins(&self, next: &ElemChild) -> bool
        ensures { result ≡ joins (child_view self.now) (child_view next.now) }
    {
        match (self, next) {
            (ElemChild::Text(f), ElemChild::Text(g)) => f.formatting == g.formatting,
            _ => false,
        }
    }

    /// The text of both, where both are texts.
    fn join(self, next: ElemChild) -> Result<ElemChild, AllocError>
        ensures { IfOk result (λ c. child_view c ≡ joined (child_view self) (child_view next)) }
    {
        match (self, next) {
            (ElemChild::Text(mut f), ElemChild::Text(g)) => {
                f.text.push_str(g.text.as_str())?;
                Ok(ElemChild::Text(f))
            }
            (child, _) => Ok(child),
        }
    }
}

/// Whether two of these children, one behind the other, are to be one.
fn has_joints(children: &[ElemChild]) -> bool
    ensures { result ≡ false
        → level_joined (map child_view children.now) ≡ map child_view children.now }
{
    let mut last: Option<&ElemChild> = None;
    for child in children {
        if let Some(before) = last {
            if before.joins(child) {
                return true;
            }
        }
        last = Some(child);
    }
    false
}

/// Joins adjacent texts of equal formatting among these children, and not inside them.
fn join_adjacent(children: &mut ElemChildren) -> Result<(), AllocError>
    ensures { OnOk result (children.new ≡ level_joined children.old) }
{
    if !has_joints(&children.0) {
        return Ok(());
    }
    let empty = ElemChildren::new(*children.0.allocator());
    let apart = mem::replace(children, empty);
    for child in apart.0 {
        append(children, child)?;
    }
    Ok(())
}

/// Whether the last of these children stays apart from this one.
fn stays_apart(children: &[ElemChild], child: &ElemChild) -> bool
    ensures apart { result ≡ true
        → join_last (map child_view children.now) (child_view child.now)
        ≡ map child_view children.now ++ child_view child.now ∷ [] }
    ensures joint { result ≡ false → (ds : List ElemChild) (d : ElemChild)
        → children.now ≡ ds ++ d ∷ []
        → joins (child_view d) (child_view child.now) ≡ true }
{
    match children.last() {
        Some(last) => !last.joins(child),
        None => true,
    }
}

/// Adds a child at the end, joined to the last where both are texts of equal formatting.
///
/// Fails where memory is refused; the last child may be lost then.
pub fn append(children: &mut ElemChildren, child: ElemChild) -> Result<(), AllocError>
    ensures { OnOk result (children.new ≡ join_last children.old (child_view child)) }
{
    if stays_apart(&children.0, &child) {
        return children.push(child);
    }
    match children.0.pop() {
        Some(last) => children.push(last.join(child)?),
        None => children.push(child),
    }
}

/// Joining adjacent texts keeps the plain text, leaves no two that are to be joined, and does
/// nothing the second time.
pub fn simplify_laws()
    ensures keeps_plain_text { (cs : List Child) → plain (simplified cs) ≡ plain cs }
    ensures leaves_none_to_join { (cs : List Child) → Apart (kids_of (simplified cs)) }
    ensures twice_is_once { (cs : List Child) → simplified (simplified cs) ≡ simplified cs }
{}

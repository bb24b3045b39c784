//! Trees of rendered text.
ghost use Rattle.std.specs.Prelude.{◌≡◌, ℕ, Bool, ◌∷◌, [], ◌++◌, map, OnOk, IsOk, IfOk, option_map};
ghost use Rattle.std.specs.Fmt.{WritesInCalls};
ghost use Rattle.value_trees.specs.ChildView.{child_view};
ghost use Rattle.value_trees.specs.Tree.{
  plain,
  child_plain,
  find_elem,
  last_text,
  child_last_text,
  no_children,
  has_names,
  child_find,
  has_content,
  child_has_content,
};

use std::alloc::{AllocError, Global};
use std::fmt;
use std::marker::Model;
use value_lists::seq::Seq;
use value_lists::text::Text;
use value_sources::entry::Person;
use value_sources::formatting::{Display, Formatted, Formatting};
use value_sources::taxonomy::NameVariable;

/// How a tree is written.
#[derive(Clone, Copy, PartialEq, Eq)]
pub enum BufWriteFormat {
    /// Texts, markup and links in their order, without formatting.
    Plain,
}

/// What an element was rendered for.
#[derive(Clone, PartialEq, Eq, PartialOrd, Ord, Hash, Drop)]
pub enum ElemMeta {
    /// Names: the persons of each name variable that was rendered.
    Names(Seq<(Seq<Person>, NameVariable)>),
    /// One name of a variable, and its place among them.
    Name(NameVariable, usize),
    Date,
    CitationNumber,
    CitationLabel,
    /// A whole entry, and its place.
    Entry(usize),
}

/// A tree: the children of an element, or of no element.
#[derive(Drop)]
#[cycle(tree)]
pub struct ElemChildren(pub Vec<ElemChild>);

/// A child of an element.
#[derive(PartialEq, Eq, Drop)]
#[cycle(tree)]
pub enum ElemChild {
    /// A text in its formatting.
    Text(Formatted),
    /// An element with children of its own.
    Elem(Elem),
    /// A text in markup of its own.
    Markup(Text),
    /// A text that leads to a URL.
    Link { text: Formatted, url: Text },
    /// A place for what the caller puts in for a cite, in this formatting.
    Transparent { cite_idx: usize, format: Formatting },
}

/// An element: children, and how they are set off and what they stand for.
#[derive(PartialEq, Eq, Drop)]
#[cycle(tree)]
pub struct Elem {
    pub children: ElemChildren,
    pub display: Option<Display>,
    pub meta: Option<ElemMeta>,
}

impl Model for ElemChildren {
    ghost use Rattle.std.specs.Prelude.{List};
    ghost use Rattle.value_trees.specs.Child.{Child, coded_children};

    ghost Value = { List Child };

    ghost coded = { coded_children };

    ghost use Rattle.value_trees.specs.ChildView.{children_view, nodes};

    ghost view = { children_view };

    ghost size = { nodes };

    ghost use Rattle.std.proofs.Common.{arith};
    ghost use Rattle.value_trees.specs.Falls.{most_falls};

    ghost size_decreases = { λ a h. omega (arith, most_falls a.0.items) };
}

impl ElemChildren {
    /// No children.
    pub fn new(alloc: Global) -> ElemChildren
        ensures { result ≡ [] }
    {
        ElemChildren(Vec::new(alloc))
    }

    /// Whether there are no children.
    pub fn is_empty(&self) -> bool
        ensures { result ≡ no_children self.now }
    {
        self.0.is_empty()
    }

    /// Adds a child at the end. Where the capacity is used up it is doubled, and the first is one.
    ///
    /// Fails where memory is refused.
    pub fn push(&mut self, child: ElemChild) -> Result<(), AllocError>
        ensures { OnOk result (self.new ≡ self.old ++ child_view child ∷ []) }
    {
        if self.0.len() == self.0.capacity() {
            self.0.reserve_exact(self.0.len().max(1))?;
        }
        self.0.push(child)?;
        Ok(())
    }

    /// The children as a vector.
    pub fn into_vec(self) -> Vec<ElemChild>
        ensures { map child_view result.items ≡ self }
    {
        self.0
    }

    /// Writes the plain text: that of texts, markup and links in their order, and nothing for a
    /// `Transparent`.
    ///
    /// Fails where the writer does, after some of the text.
    #[cycle(write)]
    pub fn write_buf<W: fmt::Write>(&self, w: &mut W, format: BufWriteFormat) -> fmt::Result
        ensures { IsOk result → WritesInCalls W.write_str_gives w.old (plain self.now) w.new }
    {
        for child in &self.0 {
            child.write_buf(w, format)?;
        }
        Ok(())
    }

    /// The last child where it is a text, and where it is an element, that of its children; `None`
    /// where the last child is of another kind, or there is none.
    #[cycle(last_text)]
    pub fn last_text(&self) -> Option<&Formatted>
        ensures { option_map (λ f. f.now) result ≡ last_text self.now }
    {
        self.0.last()?.last_text()
    }

    /// The first element with names, at any depth; an element comes before those inside it.
    #[cycle(find_names)]
    pub fn find_names(&self) -> Option<&Elem>
        ensures { option_map (λ e. e.now) result ≡ find_elem has_names self.now }
    {
        for child in &self.0 {
            if let Some(elem) = child.find_names() {
                return Some(elem);
            }
        }
        None
    }

    /// Whether there is something to see: markup, a link, a `Transparent`, or a text that is not
    /// all white space, at any depth.
    #[cycle(has_content)]
    pub fn has_content(&self) -> bool
        ensures { result ≡ has_content self.now }
    {
        for child in &self.0 {
            if child.has_content() {
                return true;
            }
        }
        false
    }
}

impl ElemChild {
    /// Writes the plain text of this child and those inside it.
    ///
    /// Fails where the writer does, after some of the text.
    #[cycle(write)]
    pub fn write_buf<W: fmt::Write>(&self, w: &mut W, format: BufWriteFormat) -> fmt::Result
        ensures { IsOk result → WritesInCalls W.write_str_gives w.old
            (child_plain (child_view self.now)) w.new }
    {
        match self {
            ElemChild::Text(f) => w.write_str(f.text.as_str()),
            ElemChild::Elem(e) => e.children.write_buf(w, format),
            ElemChild::Markup(s) => w.write_str(s.as_str()),
            ElemChild::Link { text, .. } => w.write_str(text.text.as_str()),
            ElemChild::Transparent { .. } => Ok(()),
        }
    }

    /// This text, or the last text of this element; `None` for a child of another kind.
    #[cycle(last_text)]
    pub fn last_text(&self) -> Option<&Formatted>
        ensures { option_map (λ f. f.now) result ≡ child_last_text (child_view self.now) }
    {
        match self {
            ElemChild::Text(f) => Some(f),
            ElemChild::Elem(e) => e.children.last_text(),
            ElemChild::Markup(_) | ElemChild::Link { .. } | ElemChild::Transparent { .. } => None,
        }
    }

    /// This element where it has names, and otherwise the first inside it that has.
    #[cycle(find_names)]
    pub fn find_names(&self) -> Option<&Elem>
        ensures { option_map (λ e. e.now) result ≡ child_find has_names (child_view self.now) }
    {
        match self {
            ElemChild::Elem(e) => {
                if e.has_names() {
                    Some(e)
                } else {
                    e.children.find_names()
                }
            }
            ElemChild::Text(_)
            | ElemChild::Markup(_)
            | ElemChild::Link { .. }
            | ElemChild::Transparent { .. } => None,
        }
    }

    /// Whether there is something to see in this child: markup, a link, a `Transparent`, or a text
    /// that is not all white space, at any depth.
    #[cycle(has_content)]
    pub fn has_content(&self) -> bool
        ensures { result ≡ child_has_content (child_view self.now) }
    {
        match self {
            ElemChild::Text(f) => f.text.has_content(),
            ElemChild::Elem(e) => e.children.has_content(),
            ElemChild::Markup(_) | ElemChild::Link { .. } | ElemChild::Transparent { .. } => true,
        }
    }
}

impl Elem {
    /// Whether the meta is `Names`.
    pub fn has_names(&self) -> bool
        ensures { result ≡ has_names self.now }
    {
        matches!(self.meta, Some(ElemMeta::Names(_)))
    }
}

impl Clone for ElemChildren {
    ghost is_clone = { λ a b. b ≡ a };

    fn clone(&self) -> Result<ElemChildren, AllocError> {
        copy_children(self)
    }
}

impl Clone for ElemChild {
    ghost is_clone = { λ a b. b ≡ a };

    fn clone(&self) -> Result<ElemChild, AllocError> {
        copy_child(self)
    }
}

impl Clone for Elem {
    ghost is_clone = { λ a b. b ≡ a };

    fn clone(&self) -> Result<Elem, AllocError> {
        copy_elem(self)
    }
}

#[cycle(copy)]
fn copy_children(children: &ElemChildren) -> Result<ElemChildren, AllocError>
    ensures { IfOk result (λ c. c ≡ children.now) }
{
    let mut copies = Vec::with_capacity(*children.0.allocator(), children.0.len())?;
    for child in &children.0 {
        copies.push(copy_child(child)?)?;
    }
    Ok(ElemChildren(copies))
}

#[cycle(copy)]
fn copy_child(child: &ElemChild) -> Result<ElemChild, AllocError>
    ensures { IfOk result (λ c. c ≡ child.now) }
{
    match child {
        ElemChild::Text(f) => Ok(ElemChild::Text(f.clone()?)),
        ElemChild::Elem(e) => Ok(ElemChild::Elem(copy_elem(e)?)),
        ElemChild::Markup(s) => Ok(ElemChild::Markup(s.clone()?)),
        ElemChild::Link { text, url } => Ok(ElemChild::Link {
            text: text.clone()?,
            url: url.clone()?,
        }),
        ElemChild::Transparent { cite_idx, format } => Ok(ElemChild::Transparent {
            cite_idx: *cite_idx,
            format: *format,
        }),
    }
}

#[cycle(copy)]
fn copy_elem(elem: &Elem) -> Result<Elem, AllocError>
    ensures { IfOk result (λ e. e ≡ elem.now) }
{
    Ok(Elem {
        children: copy_children(&elem.children)?,
        display: elem.display,
        meta: elem.meta.clone()?,
    })
}

impl PartialEq for ElemChildren {
    ghost use Rattle.value_trees.specs.SameTree.{same_trees, same_trees-laws};
    ghost use Rattle.std.specs.Cmp.{partial_equiv_from_equiv};

    ghost eq = { same_trees };

    ghost laws = { partial_equiv_from_equiv same_trees-laws };

    #[cycle(tree)]
    fn eq(&self, other: &ElemChildren) -> bool {
        if self.0.len() != other.0.len() {
            return false;
        }
        for i in 0..self.0.len() {
            if !(self.0[i] == other.0[i]) {
                return false;
            }
        }
        true
    }
}

impl Eq for ElemChildren {
    ghost use Rattle.value_trees.specs.SameTree.{same_trees-laws};

    ghost laws = { same_trees-laws };
}

impl From<Formatted> for ElemChild {
    ghost use Rattle.value_trees.specs.declared.elem.ElemChild.TheVariants.{Text};

    ghost from_gives = { λ formatted child. child ≡ Text formatted };

    /// A text of a tree.
    fn from(formatted: Formatted) -> ElemChild {
        ElemChild::Text(formatted)
    }
}

impl From<Elem> for ElemChild {
    ghost use Rattle.value_trees.specs.declared.elem.ElemChild.TheVariants.{Elem};

    ghost from_gives = { λ elem child. child ≡ Elem elem };

    /// An element inside a tree.
    fn from(elem: Elem) -> ElemChild {
        ElemChild::Elem(elem)
    }
}

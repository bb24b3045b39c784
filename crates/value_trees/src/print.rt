//! Trees as plain text.
ghost use Rattle.std.specs.Prelude.{◌≡◌, ◌++◌, Some, OnOk, string_bytes};
ghost use Rattle.std.specs.Fmt.{WritesOnOk};
ghost use Rattle.value_trees.specs.ChildView.{child_view};
ghost use Rattle.value_trees.specs.Tree.{plain, child_plain};

use crate::elem::{ElemChild, ElemChildren};
use std::alloc::AllocError;
use std::fmt;

/// Writes the plain text: that of texts, markup and links in their order, without formatting, and
/// nothing for a `Transparent`.
impl fmt::Display for ElemChildren {
    ghost output = { λ children. Some (plain children) };

    fn fmt<W: fmt::Write>(&self, f: &mut fmt::Formatter<W>) -> fmt::Result {
        print_children(self, f)
    }
}

impl ElemChildren {
    /// Appends the plain text to `text`.
    ///
    /// Fails where memory is refused. What `text` holds then is not specified.
    pub fn write_plain(&self, text: &mut String) -> Result<(), AllocError>
        ensures { OnOk result (string_bytes text.new ≡ string_bytes text.old ++ plain self.now) }
    {
        write!(text, "{self}")?;
        Ok(())
    }
}

/// Writes the plain text of this child and those inside it.
impl fmt::Display for ElemChild {
    ghost output = { λ child. Some (child_plain (child_view child)) };

    fn fmt<W: fmt::Write>(&self, f: &mut fmt::Formatter<W>) -> fmt::Result {
        print_child(self, f)
    }
}

impl ElemChild {
    /// Appends the plain text of this child and those inside it to `text`.
    ///
    /// Fails where memory is refused. What `text` holds then is not specified.
    pub fn write_plain(&self, text: &mut String) -> Result<(), AllocError>
        ensures { OnOk result (string_bytes text.new
            ≡ string_bytes text.old ++ child_plain (child_view self.now)) }
    {
        write!(text, "{}", self)?;
        Ok(())
    }
}

#[cycle(print)]
fn print_children<W: fmt::Write>(children: &ElemChildren, f: &mut fmt::Formatter<W>) -> fmt::Result
    ensures { WritesOnOk W.write_str_gives f.old result (plain children.now) f.new }
{
    for child in &children.0 {
        print_child(child, f)?;
    }
    Ok(())
}

#[cycle(print)]
fn print_child<W: fmt::Write>(child: &ElemChild, f: &mut fmt::Formatter<W>) -> fmt::Result
    ensures { WritesOnOk W.write_str_gives f.old result (child_plain (child_view child.now)) f.new }
{
    match child {
        ElemChild::Text(t) => f.write_str(t.text.as_str()),
        ElemChild::Elem(e) => print_children(&e.children, f),
        ElemChild::Markup(s) => f.write_str(s.as_str()),
        ElemChild::Link { text, .. } => f.write_str(text.text.as_str()),
        ElemChild::Transparent { .. } => Ok(()),
    }
}

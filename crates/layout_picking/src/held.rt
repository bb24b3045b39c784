//! What a picking holds, and nodes in it.
ghost use Rattle.std.specs.Prelude.{◌≡◌, OnOk, IfOk};
ghost use Rattle.layout_picking.specs.PiecesView.{node_view};
ghost use Rattle.layout_picking.specs.HeldView.{held};
ghost use Rattle.layout_picking.specs.Nodes.{
  inside,
  remembered,
  is_empty_node,
  is_without_content,
  cut_back,
  closed_as,
  macro_closed,
  group_closed,
};

use crate::notes::{Called, Notes};
use crate::pieces::{Node, Piece};
use std::alloc::AllocError;

/// What is picked so far, what was called, and what is noted.
#[derive(Drop)]
pub struct Picking<'a> {
    pub pieces: Vec<Piece<'a>>,
    pub called: Called,
    pub notes: Notes,
}

/// Where a node was opened: how many pieces stood before it and with its opening, and what was
/// called before it.
#[derive(Clone, Copy)]
pub(crate) struct Opened {
    before: usize,
    inside: usize,
    called: Called,
}

impl<'a> Picking<'a> {
    /// Opens a node. It is closed by one of the two calls below, or cut back where it is empty.
    pub(crate) fn open(&mut self, node: Node<'a>) -> Result<Opened, AllocError>
        ensures inside { OnOk result
            (held self.new ≡ inside (node_view node.entry) (held self.old)) }
        ensures opened { IfOk result (λ o. o ≡ remembered (held self.old)) }
    {
        let (before, called) = (self.pieces.len(), self.called);
        self.pieces.push(Piece::Open(node))?;
        self.called = Called::None;
        Ok(Opened {
            before,
            inside: self.pieces.len(),
            called,
        })
    }

    /// Whether nothing stands in a node.
    pub(crate) fn is_empty_node(&self, opened: Opened) -> bool
        ensures { result ≡ is_empty_node opened (held self.now) }
    {
        self.pieces.len() <= opened.inside
    }

    fn cut_back(&mut self, opened: Opened)
        ensures { held self.new ≡ cut_back opened (held self.old) }
    {
        self.pieces.truncate(opened.before);
        self.called = opened.called.and(self.called);
    }

    fn close_as(&mut self, called: Called, opened: Opened) -> Result<(), AllocError>
        ensures { OnOk result (held self.new ≡ closed_as called opened (held self.old)) }
    {
        self.pieces.push(Piece::Close)?;
        self.called = opened.called.and(called);
        Ok(())
    }

    /// Closes the node of a macro.
    pub(crate) fn close_macro(&mut self, opened: Opened) -> Result<(), AllocError>
        ensures { OnOk result (held self.new ≡ macro_closed opened (held self.old)) }
    {
        if self.is_empty_node(opened) {
            self.cut_back(opened);
            return Ok(());
        }
        self.close_as(self.called, opened)
    }

    /// Closes a group, which is nothing where variables were called and none had content.
    pub(crate) fn close_group(&mut self, opened: Opened) -> Result<(), AllocError>
        ensures { OnOk result (held self.new ≡ group_closed opened (held self.old)) }
    {
        if self.called.is_without_content() || self.is_empty_node(opened) {
            self.cut_back(opened);
            return Ok(());
        }
        self.close_as(Called::Filled, opened)
    }
}

impl Called {
    // Whether variables were called, and none had content.
    fn is_without_content(self) -> bool
        ensures { result ≡ is_without_content self }
    {
        matches!(self, Called::Empty)
    }
}

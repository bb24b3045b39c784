//! A node whose parts are being written.
ghost use Rattle.std.specs.Prelude.{◌≡◌, ◌+◌, length};
ghost use Rattle.layout_picking.specs.PiecesView.{node_view};
ghost use Rattle.layout_context.specs.Steps.{term_text};

use layout_context::token::DisplayLoc;
use layout_picking::pieces::Node;

/// A node whose parts are being written, and the two frames that it opened.
#[derive(Drop)]
pub(crate) struct OpenNode<'a> {
    pub(crate) node: Node<'a>,
    /// The outer frame, which its prefix began, and the prefix's length.
    pub(crate) prefix: (DisplayLoc, usize),
    /// The inner one, in its formatting.
    pub(crate) elem: DisplayLoc,
    ghost within_prefix: { elem.frames ≡ prefix.0.frames + 1 },
    ghost same_formats: { elem.formats ≡ prefix.0.formats },
    ghost offset: { prefix.1 ≡ length (term_text (node_view node).look.affixes.prefix) },
}

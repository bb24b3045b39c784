//! What a layout picks: one flat list of openings, leaves and closings.
ghost use Rattle.std.specs.Prelude.{◌≡◌, ◌++◌, OnOk, IfOk, option_map};
ghost use Rattle.layout_picking.specs.Pieces.{tokens, node_of, leaves_of, plain_node};
ghost use Rattle.layout_picking.specs.Picked.{gives};
ghost use Rattle.layout_picking.specs.PiecesView.{leaf_view, node_view, shape_look, tokens_of};

use csl_base::elem::ElemMeta;
use csl_base::element::Affixes;
use csl_base::entry::ChunkedString;
use csl_base::formatting::{Display, StyleFormatting};
use csl_base::text::Text;
use std::alloc::AllocError;

/// What is written at one place, and has nothing inside. What can be borrowed from the style or
/// the entry is borrowed.
#[derive(Drop)]
pub enum Leaf<'a> {
    Text(&'a str),
    /// A text that stands neither in the style nor in the entry.
    Owned(Text),
    /// A number in decimal digits.
    Number(u128),
    /// The letters of a year suffix; 0 is `a`.
    Suffix(usize),
    /// A year, and the words behind it for after Christ or before, where it has them.
    Year { year: i32, era: &'a str },
    Chunked(&'a ChunkedString),
    /// A link of a text to itself.
    Link(&'a ChunkedString),
    /// The mark of a cite's own locator; the number is the cite's place.
    Mark(usize),
}

/// How the pieces of one element are written together.
#[derive(Drop)]
pub struct Node<'a> {
    /// None stands for affixes that are both absent.
    pub affixes: Option<&'a Affixes>,
    pub formatting: StyleFormatting,
    pub display: Option<Display>,
    pub quotes: bool,
    pub strip_periods: bool,
    /// What stands between two neighbours in the node.
    pub delimiter: Option<&'a str>,
    pub meta: Option<ElemMeta>,
}

/// One step of writing. Each opening has its closing, with pieces between them.
#[derive(Drop)]
pub enum Piece<'a> {
    Open(Node<'a>),
    Leaf(Leaf<'a>),
    Close,
}

/// How an element is written.
#[derive(Clone, Copy)]
pub(crate) struct Shape<'a> {
    pub affixes: &'a Affixes,
    pub formatting: StyleFormatting,
    pub display: Option<Display>,
    pub quotes: bool,
    pub strip_periods: bool,
}

impl<'a> Shape<'a> {
    /// A node of this shape, without a delimiter.
    pub(crate) fn node(self, meta: Option<ElemMeta>) -> Node<'a>
        ensures { node_view result
            ≡ plain_node (shape_look self.entry) self.entry.quotes self.entry.strip_periods meta }
    {
        Node {
            affixes: Some(self.affixes),
            formatting: self.formatting,
            display: self.display,
            quotes: self.quotes,
            strip_periods: self.strip_periods,
            delimiter: None,
            meta,
        }
    }
}

/// Adds a node of a leaf and a suffix behind it, where one of them is there, and returns whether it
/// did.
pub(crate) fn add_node<'a>(
    pieces: &mut Vec<Piece<'a>>,
    node: Node<'a>,
    leaf: Option<Leaf<'a>>,
    suffix: Option<usize>,
) -> Result<bool, AllocError>
    ensures pieces { OnOk result (tokens_of pieces.new.items
        ≡ tokens_of pieces.old.items
        ++ tokens (node_of (node_view node.entry)
        (leaves_of (option_map leaf_view leaf.entry) suffix))) }
    ensures given { IfOk result
        (λ b. b ≡ gives (leaves_of (option_map leaf_view leaf.entry) suffix)) }
{
    if leaf.is_none() && suffix.is_none() {
        return Ok(false);
    }
    pieces.push(Piece::Open(node))?;
    if let Some(leaf) = leaf {
        pieces.push(Piece::Leaf(leaf))?;
    }
    if let Some(suffix) = suffix {
        pieces.push(Piece::Leaf(Leaf::Suffix(suffix)))?;
    }
    pieces.push(Piece::Close)?;
    Ok(true)
}

//! Writing of what a layout picks.
ghost use Rattle.std.specs.Prelude.{
  ◌≡◌,
  ◌+◌,
  OnOk,
  IfOk,
  length,
  option_map,
  if◌then◌else◌,
  List,
  true,
  false,
};
ghost use Rattle.std.specs.Fmt.{decimal};
ghost use Rattle.driver_lookup.specs.SourceView.{lookup_view};
ghost use Rattle.layout_picking.specs.Pieces.{Part, tokens};
ghost use Rattle.layout_picking.specs.PiecesView.{leaf_view, node_view, token_of, tokens_of};
ghost use Rattle.layout_context.specs.Steps.{term_text};
ghost use Rattle.layout_context.specs.WritingState.{state};
ghost use Rattle.layout_context.specs.Wording.{
  quotes_opened,
  quotes_closed,
  pulling_if_asked,
  linked,
  joined_values,
};
ghost use Rattle.csl_writing.specs.PartsWritten.{
  leaf_written,
  node_begun,
  node_ended,
  delimiter_pushed,
  parts_written,
};
ghost use Rattle.csl_writing.specs.PieceRun.{
  innermost,
  delimiter_of,
  separated,
  after_leaf,
  after_opening,
  closed_run,
  after_token,
  after_tokens,
};
ghost use Rattle.csl_writing.specs.OpenNodes.{open_view, open_views, IsNested, run_of};

use crate::open_node::OpenNode;
use csl_base::entry::ChunkedString;
use csl_base::text::Text;
use driver_lookup::lookup::StyleLocales;
use driver_lookup::year::{letters_of_suffix, year_in_words};
use layout_context::token::DisplayLoc;
use layout_context::wording::{
    allocator, apply_suffix, begin_prefix, joined_values, may_pull_punctuation, may_strip_periods,
    pop_quotes, push_chunked, push_link, push_quotes, push_str, push_transparent,
    stop_stripping_periods,
};
use layout_context::writing::WritingContext;
use layout_picking::pieces::{Leaf, Node, Piece};
use std::alloc::{AllocError, Global};
use std::fmt::Write;

// How deep nodes nest before their stack grows.
const DEPTH: usize = 8;

fn prefix_of<'a>(node: &Node<'a>) -> Option<&'a str>
    ensures { option_map (λ s. s.now) result ≡ (node_view node.now).look.affixes.prefix }
{
    node.affixes?.prefix.as_deref()
}

fn suffix_of<'a>(node: &Node<'a>) -> Option<&'a str>
    ensures { option_map (λ s. s.now) result ≡ (node_view node.now).look.affixes.suffix }
{
    node.affixes?.suffix.as_deref()
}

fn open_quotes(
    style: &StyleLocales<'_>,
    writing: &mut WritingContext<'_>,
    asked: bool,
) -> Result<(), AllocError>
    ensures done { OnOk result (state writing.new
        ≡ (if asked then quotes_opened (lookup_view style.now) (state writing.old)
        else state writing.old)) }
    ensures height { length (state writing.new).frames ≡ length (state writing.old).frames }
{
    if asked {
        return push_quotes(style, writing);
    }
    Ok(())
}

fn close_quotes(
    style: &StyleLocales<'_>,
    writing: &mut WritingContext<'_>,
    asked: bool,
) -> Result<(), AllocError>
    ensures done { OnOk result (state writing.new
        ≡ (if asked then pulling_if_asked (lookup_view style.now)
        (quotes_closed (lookup_view style.now) (state writing.old)) else state writing.old)) }
    ensures height { length (state writing.new).frames ≡ length (state writing.old).frames }
{
    if asked {
        pop_quotes(style, writing)?;
        may_pull_punctuation(style, writing);
    }
    Ok(())
}

// What comes before the parts of a node. Gives the frame that its prefix began, the prefix's
// length, and the frame in its formatting.
#[tactic(auto, unfolding(crate::specs::PartsWritten::node_begun))]
fn begin_node(
    style: &StyleLocales<'_>,
    writing: &mut WritingContext<'_>,
    node: &Node<'_>,
) -> Result<(DisplayLoc, usize, DisplayLoc), AllocError>
    ensures done { OnOk result (state writing.new
        ≡ node_begun (lookup_view style.now) (node_view node.now) (state writing.old)) }
    ensures frame { IfOk result (λ begun. begun.0.frames ≡ length (state writing.old).frames) }
    ensures formats { IfOk result (λ begun. begun.2.formats ≡ length (state writing.old).formats) }
    ensures within_prefix { IfOk result (λ begun. begun.2.frames ≡ begun.0.frames + 1) }
    ensures same_formats { IfOk result (λ begun. begun.2.formats ≡ begun.0.formats) }
    ensures offset { IfOk result (λ begun. begun.1
        ≡ length (term_text (node_view node.now).look.affixes.prefix)) }
    ensures height { OnOk result
        (length (state writing.new).frames ≡ length (state writing.old).frames + 2) }
{
    let (prefix, offset) = begin_prefix(writing, prefix_of(node))?;
    let elem = writing.push_elem(node.formatting)?;
    open_quotes(style, writing, node.quotes)?;
    may_strip_periods(writing, node.strip_periods);
    Ok((prefix, offset, elem))
}

// What comes behind the parts of a node.
#[tactic(auto, unfolding(crate::specs::PartsWritten::node_ended))]
fn end_node(
    style: &StyleLocales<'_>,
    writing: &mut WritingContext<'_>,
    ended: OpenNode<'_>,
) -> Result<(), AllocError>
    requires { ended.elem.frames + 1 ≡ length (state writing.old).frames }
    ensures done { OnOk result (state writing.new
        ≡ node_ended (lookup_view style.now) (node_view ended.entry.node) ended.entry.elem.formats
        (state writing.old)) }
    ensures height { OnOk result (length (state writing.new).frames ≡ ended.entry.prefix.0.frames) }
{
    let OpenNode { node, prefix, elem } = ended;
    let suffix = suffix_of(&node);
    if node.strip_periods {
        stop_stripping_periods(writing);
    }
    close_quotes(style, writing, node.quotes)?;
    writing.commit_elem(elem, node.display, node.meta)?;
    apply_suffix(style, writing, suffix, prefix)
}

// A number is wider than any that is counted, so that one more can be printed.
fn decimal_text(alloc: Global, number: u128) -> Result<Text, AllocError>
    ensures { IfOk result (λ text. text ≡ decimal number) }
{
    let mut text = Text::copied(alloc, "")?;
    match write!(text, "{number}") {
        Ok(()) => Ok(text),
        Err(_) => Err(AllocError),
    }
}

fn push_link_to_itself(
    writing: &mut WritingContext<'_>,
    text: &ChunkedString,
) -> Result<(), AllocError>
    ensures done { OnOk result (state writing.new
        ≡ linked text.now.0 (joined_values text.now.0) (state writing.old)) }
    ensures height { length (state writing.new).frames ≡ length (state writing.old).frames }
{
    let url = joined_values(allocator(writing), text)?;
    push_link(writing, text, url)
}

#[tactic(auto, unfolding(crate::specs::PartsWritten::leaf_written))]
fn push_leaf(
    style: &StyleLocales<'_>,
    writing: &mut WritingContext<'_>,
    leaf: &Leaf<'_>,
) -> Result<(), AllocError>
    ensures done { OnOk result (state writing.new
        ≡ leaf_written (lookup_view style.now) (leaf_view leaf.now) (state writing.old)) }
    ensures height { length (state writing.new).frames ≡ length (state writing.old).frames }
{
    let alloc = allocator(writing);
    match leaf {
        Leaf::Text(text) => push_str(style, writing, text),
        Leaf::Owned(text) => push_str(style, writing, text.as_str()),
        Leaf::Number(number) => {
            let text = decimal_text(alloc, *number)?;
            push_str(style, writing, text.as_str())
        }
        Leaf::Suffix(suffix) => {
            let text = letters_of_suffix(alloc, *suffix)?;
            push_str(style, writing, text.as_str())
        }
        Leaf::Year { year, era } => {
            let text = year_in_words(alloc, *year, false, era, era)?;
            push_str(style, writing, text.as_str())
        }
        Leaf::Chunked(text) => push_chunked(style, writing, text),
        Leaf::Link(text) => push_link_to_itself(writing, text),
        Leaf::Mark(cite) => push_transparent(writing, *cite),
    }
}

#[tactic(auto, unfolding(crate::specs::PartsWritten::delimiter_pushed))]
fn push_delimiter(
    style: &StyleLocales<'_>,
    writing: &mut WritingContext<'_>,
    delimiter: Option<&str>,
) -> Result<(), AllocError>
    ensures done { OnOk result (state writing.new
        ≡ delimiter_pushed (lookup_view style.now) (option_map (λ s. s.now) delimiter.entry)
        (state writing.old)) }
    ensures height { length (state writing.new).frames ≡ length (state writing.old).frames }
{
    match delimiter {
        Some(delimiter) => push_str(style, writing, delimiter),
        None => Ok(()),
    }
}

// What stands between two parts of the innermost node.
fn innermost_delimiter<'a>(nodes: &[OpenNode<'a>]) -> Option<&'a str>
    ensures { option_map (λ s. s.now) result ≡ delimiter_of (open_views nodes.now) }
{
    nodes.last()?.node.delimiter
}

// Writes the delimiter of the innermost node, where a part stands before.
#[tactic(auto, unfolding(crate::specs::PieceRun::separated, crate::specs::PartsWritten::delimiter_pushed))]
fn separate(
    style: &StyleLocales<'_>,
    writing: &mut WritingContext<'_>,
    nodes: &[OpenNode<'_>],
    after_part: bool,
) -> Result<(), AllocError>
    ensures done { OnOk result (state writing.new
        ≡ separated (lookup_view style.now) (run_of nodes.now after_part writing.old)) }
    ensures height { length (state writing.new).frames ≡ length (state writing.old).frames }
{
    if after_part {
        return push_delimiter(style, writing, innermost_delimiter(nodes));
    }
    Ok(())
}

#[tactic(auto, unfolding(crate::specs::PieceRun::after_leaf))]
fn write_leaf(
    style: &StyleLocales<'_>,
    writing: &mut WritingContext<'_>,
    nodes: &[OpenNode<'_>],
    after_part: bool,
    leaf: &Leaf<'_>,
) -> Result<(), AllocError>
    ensures done { OnOk result (run_of nodes.now true writing.new
        ≡ after_leaf (lookup_view style.now) (leaf_view leaf.now)
        (run_of nodes.now after_part writing.old)) }
    ensures height { length (state writing.new).frames ≡ length (state writing.old).frames }
{
    separate(style, writing, nodes, after_part)?;
    push_leaf(style, writing, leaf)
}

#[tactic(auto, unfolding(crate::specs::PieceRun::after_opening))]
fn open_node<'a>(
    style: &StyleLocales<'_>,
    writing: &mut WritingContext<'_>,
    nodes: &mut Vec<OpenNode<'a>>,
    after_part: bool,
    node: Node<'a>,
) -> Result<(), AllocError>
    requires { IsNested nodes.old.items (length (state writing.old).frames) }
    ensures done { OnOk result (run_of nodes.new.items false writing.new
        ≡ after_opening (lookup_view style.now) (node_view node.entry)
        (run_of nodes.old.items after_part writing.old)) }
    ensures nested { OnOk result (IsNested nodes.new.items (length (state writing.new).frames)) }
{
    separate(style, writing, nodes, after_part)?;
    let (prefix, offset, elem) = begin_node(style, writing, &node)?;
    nodes.push(OpenNode {
        node,
        prefix: (prefix, offset),
        elem,
    })?;
    Ok(())
}

// A closing without an opening writes nothing.
#[tactic(auto, unfolding(crate::specs::PieceRun::closed_run))]
fn close_node(
    style: &StyleLocales<'_>,
    writing: &mut WritingContext<'_>,
    nodes: &mut Vec<OpenNode<'_>>,
    after_part: bool,
) -> Result<(), AllocError>
    requires { IsNested nodes.old.items (length (state writing.old).frames) }
    ensures done { OnOk result (run_of nodes.new.items true writing.new
        ≡ closed_run (lookup_view style.now) (innermost (open_views nodes.old.items))
        (run_of nodes.old.items after_part writing.old)) }
    ensures nested { OnOk result (IsNested nodes.new.items (length (state writing.new).frames)) }
{
    match nodes.pop() {
        Some(ended) => end_node(style, writing, ended),
        None => Ok(()),
    }
}

// Writes one piece. Returns whether it ends a part of the innermost node.
#[tactic(auto, unfolding(crate::specs::PieceRun::after_token))]
fn write_piece<'a>(
    style: &StyleLocales<'_>,
    writing: &mut WritingContext<'_>,
    nodes: &mut Vec<OpenNode<'a>>,
    after_part: bool,
    piece: Piece<'a>,
) -> Result<bool, AllocError>
    requires { IsNested nodes.old.items (length (state writing.old).frames) }
    ensures done { IfOk result (λ after. run_of nodes.new.items after writing.new
        ≡ after_token (lookup_view style.now) (token_of piece.entry)
        (run_of nodes.old.items after_part writing.old)) }
    ensures nested { OnOk result (IsNested nodes.new.items (length (state writing.new).frames)) }
{
    match piece {
        Piece::Leaf(leaf) => {
            write_leaf(style, writing, nodes, after_part, &leaf)?;
            Ok(true)
        }
        Piece::Open(node) => {
            open_node(style, writing, nodes, after_part, node)?;
            Ok(false)
        }
        Piece::Close => {
            close_node(style, writing, nodes, after_part)?;
            Ok(true)
        }
    }
}

// Writes the pieces one after the other. Returns whether they end a part of the innermost node.
fn write_all<'a>(
    style: &StyleLocales<'_>,
    writing: &mut WritingContext<'_>,
    nodes: &mut Vec<OpenNode<'a>>,
    pieces: Vec<Piece<'a>>,
) -> Result<bool, AllocError>
    requires { IsNested nodes.old.items (length (state writing.old).frames) }
    ensures { IfOk result (λ after. run_of nodes.new.items after writing.new
        ≡ after_tokens (lookup_view style.now) (tokens_of pieces.entry.items)
        (run_of nodes.old.items false writing.old)) }
{
    let mut after_part = false;
    for piece in pieces {
        after_part = write_piece(style, writing, nodes, after_part, piece)?;
    }
    Ok(after_part)
}

/// Writes what a layout picks: a list of openings, leaves and closings, in one go over it.
///
/// # Errors
///
/// Where memory is refused.
pub(crate) fn write_pieces<'a>(
    style: &StyleLocales<'_>,
    writing: &mut WritingContext<'_>,
    pieces: Vec<Piece<'a>>,
) -> Result<(), AllocError>
    ensures { (parts : List Part) → tokens_of pieces.entry.items ≡ tokens parts
        → OnOk result (state writing.new
        ≡ parts_written (lookup_view style.now) parts (state writing.old)) }
{
    let mut nodes = Vec::with_capacity(allocator(writing), DEPTH)?;
    write_all(style, writing, &mut nodes, pieces)?;
    Ok(())
}

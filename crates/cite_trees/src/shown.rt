//! Streams as the trees that are shown.
use crate::trees::tree_of;
use cite_pieces::formatting::TextFormatting;
use cite_pieces::marked::with_marks;
use cite_pieces::pieces::Pieces;
use cite_texts::quotes::QuoteMarks;
use csl_base::elem::ElemChildren;
use std::alloc::{AllocError, Global};

/// The tree of a stream, with quotation marks as text. Texts in it are joined where they have the
/// same formatting.
///
/// # Errors
///
/// Where memory is refused.
pub fn shown_tree(
    alloc: Global,
    pieces: &Pieces,
    marks: QuoteMarks<'_>,
) -> Result<ElemChildren, AllocError> {
    let stream = with_marks(alloc, pieces, marks)?;
    let mut tree = tree_of(alloc, stream, TextFormatting::NORMAL, &[])?;
    tree.simplify_children()?;
    Ok(tree)
}

//! Cites that lead to their items.
use crate::page::anchor;
use cite_pieces::piece::{Mark, Piece, Wrap};
use cite_pieces::pieces::Pieces;
use cite_tasks::cites::Citation;
use std::alloc::{AllocError, Global};

/// What is open around the pieces that are read.
#[derive(Drop)]
struct Level {
    wrap: Wrap,
    inside: Pieces,
    /// Whether a link stands inside.
    has_link: bool,
}

/// What a citation shows, where each of its cites leads to the target at its place, in the same
/// page. A cite in which a link stands leads where that does.
///
/// # Errors
///
/// Where memory is refused.
pub fn with_links(alloc: Global, shown: &Pieces, targets: &[String]) -> Result<Pieces, AllocError> {
    let mut out = Pieces::new(alloc);
    let mut open: Vec<Level> = Vec::new(alloc);
    for piece in shown.as_slice() {
        match piece {
            Piece::Text(text) => {
                let text = Pieces::of_str(alloc, text.as_str())?;
                push_innermost(&mut out, &mut open, text)?;
            }
            Piece::Open(wrap) => open.push(Level {
                wrap: wrap.clone()?,
                inside: Pieces::new(alloc),
                has_link: false,
            })?,
            Piece::Close => {
                if let Some(level) = open.pop() {
                    close(alloc, &mut out, &mut open, level, targets)?;
                }
            }
        }
    }
    Ok(out)
}

/// For each citation the ids of the items of its cites, in their order.
///
/// # Errors
///
/// Where memory is refused.
pub fn targets_of(alloc: Global, citations: &[Citation]) -> Result<Vec<Vec<String>>, AllocError> {
    let mut all = Vec::new(alloc);
    for citation in citations {
        let mut targets = Vec::new(alloc);
        for cite in &citation.cites {
            targets.push(anchor(alloc, cite.id.as_str())?)?;
        }
        all.push(targets)?;
    }
    Ok(all)
}

/// Adds pieces to what is open innermost.
fn push_innermost(
    out: &mut Pieces,
    open: &mut Vec<Level>,
    pieces: Pieces,
) -> Result<(), AllocError> {
    match open.last_mut() {
        Some(level) => level.inside.push_pieces(pieces),
        None => out.push_pieces(pieces),
    }
}

/// Closes what was open innermost; around a cite without a link stands one to its item.
fn close(
    alloc: Global,
    out: &mut Pieces,
    open: &mut Vec<Level>,
    level: Level,
    targets: &[String],
) -> Result<(), AllocError> {
    let Level {
        wrap,
        inside,
        has_link,
    } = level;
    let wrap = if has_link {
        wrap
    } else {
        linked(alloc, wrap, targets)?
    };
    let has_link = has_link || matches!(wrap, Wrap::Link(_));
    let mut wrapped = Pieces::new(alloc);
    wrapped.push_wrapped(wrap, inside)?;
    push_innermost(out, open, wrapped)?;
    if has_link {
        if let Some(around) = open.last_mut() {
            around.has_link = true;
        }
    }
    Ok(())
}

/// What stands around a cite, as a link to its target; anything else as it is.
fn linked(alloc: Global, wrap: Wrap, targets: &[String]) -> Result<Wrap, AllocError> {
    match target_of(&wrap, targets) {
        Some(target) => Ok(Wrap::Link(format!(in alloc; "#{target}")?)),
        None => Ok(wrap),
    }
}

/// The target of the cite that a mark stands around.
fn target_of<'t>(wrap: &Wrap, targets: &'t [String]) -> Option<&'t str> {
    match wrap {
        Wrap::Mark(Mark::Entry(place)) => targets.get(*place).map(|target| target.as_str()),
        _ => None,
    }
}

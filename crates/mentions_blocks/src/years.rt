//! Years of parts of blocks (CSL 1.0.2, cite collapsing: year, year-suffix and year-suffix-ranged).
ghost use Rattle.std.specs.Prelude.{◌≡◌, ◌&&◌, ◌||◌, ℕ, IfOk, OnOk, Some, nat_eq};
ghost use Rattle.std.specs.List.{list_any};
ghost use Rattle.mentions_ranges.specs.Stretches.{both};
ghost use Rattle.mentions_blocks.specs.Years.{in_one_part, is_located, year_by, years};

use indexmap::IndexSet;
use std::alloc::{AllocError, Global};

/// How a style collapses the years of parts.
#[derive(Clone, Copy)]
pub struct YearCollapse {
    /// Whether it collapses by `year`; else it collapses suffixes of years too.
    pub by_year: bool,
    /// Whether it names an after-collapse delimiter.
    pub has_delimiter: bool,
}

/// A cite of a request whose years collapse, in the final order.
#[derive(Clone, Copy)]
pub struct BlockCite {
    /// The place of the first cite of its part of a block.
    pub part: usize,
    /// Whether it can be cut: it shows names, and a date.
    pub can_be_cut: bool,
    pub has_locator: bool,
}

/// What stands before a cite.
#[derive(Clone, Copy)]
pub enum BlockDelimiter {
    /// The layout's delimiter, or nothing before the first cite.
    Layout,
    /// The cite group delimiter.
    Group,
    /// The after-collapse delimiter.
    AfterCollapse,
}

/// What collapsing the years of parts makes of a cite.
#[derive(Clone, Copy)]
pub struct BlockYear {
    /// Whether its names are left out.
    pub is_cut: bool,
    /// What stands before it.
    pub delimiter: BlockDelimiter,
}

/// What collapsing the years of parts makes of the cites of a request. Those that aren't the first
/// of their part leave their names out, where they can be cut. The after-collapse delimiter follows
/// a part of two or more; by `year` it follows each, and, if the style has one, it also stands
/// between the cites of a part where some cite has a locator.
///
/// # Errors
///
/// Where memory is refused.
pub fn years_of_parts(
    alloc: Global,
    how: YearCollapse,
    cites: &[BlockCite],
) -> Result<Vec<BlockYear>, AllocError>
    ensures { IfOk result (λ v. v.items ≡ years cites.now how) }
{
    let located = located_parts(alloc, cites)?;
    let mut before: Option<BlockCite> = None;
    // Whether the after-collapse delimiter follows the part that ends before the next cite.
    let mut collapses = false;
    let mut found = Vec::with_capacity(alloc, cites.len())?;
    for cite in cites {
        let follows = in_one_part(before, cite);
        let is_located = located.contains(&cite.part);
        found.push(year_by(how, cite, follows, collapses, is_located))?;
        collapses = collapses_behind(how, follows);
        before = Some(*cite);
    }
    Ok(found)
}

/// Whether a cite is of the part of the one before it, if there is one.
fn in_one_part(before: Option<BlockCite>, cite: &BlockCite) -> bool
    ensures { result ≡ both in_one_part before (Some cite.now) }
{
    match before {
        Some(before) => before.part == cite.part,
        None => false,
    }
}

/// Whether the after-collapse delimiter follows a part whose last cite comes behind another of it,
/// or doesn't.
fn collapses_behind(how: YearCollapse, follows: bool) -> bool
    ensures { result ≡ (how.by_year || follows) }
{
    how.by_year || follows
}

/// A cite, by whether it comes behind another of its part, whether the after-collapse delimiter
/// follows the part before its own, and whether some cite of its part has a locator.
fn year_by(
    how: YearCollapse,
    cite: &BlockCite,
    follows: bool,
    collapses: bool,
    is_located: bool,
) -> BlockYear
    ensures { result ≡ year_by how cite.now follows collapses is_located }
{
    BlockYear {
        is_cut: follows && cite.can_be_cut,
        delimiter: if follows {
            if how.by_year && how.has_delimiter && is_located {
                BlockDelimiter::AfterCollapse
            } else {
                BlockDelimiter::Group
            }
        } else if collapses {
            BlockDelimiter::AfterCollapse
        } else {
            BlockDelimiter::Layout
        },
    }
}

/// Notes the part of a cite, if the cite has a locator.
fn add_located(located: &mut IndexSet<usize>, cite: &BlockCite) -> Result<(), AllocError>
    ensures { OnOk result ((n : ℕ) → list_any (nat_eq n) located.new.keys
        ≡ (list_any (nat_eq n) located.old.keys
        || (cite.now.has_locator && nat_eq n cite.now.part))) }
{
    if cite.has_locator {
        located.insert(cite.part)?;
    }
    Ok(())
}

/// The parts in which some cite has a locator.
fn located_parts(alloc: Global, cites: &[BlockCite]) -> Result<IndexSet<usize>, AllocError>
    ensures { IfOk result (λ s. (n : ℕ) → list_any (nat_eq n) s.keys ≡ is_located cites.now n) }
{
    let mut located = IndexSet::new(alloc);
    for cite in cites {
        add_located(&mut located, cite)?;
    }
    Ok(located)
}

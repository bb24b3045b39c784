//! Entries that are disambiguated by year suffixes.
ghost use Rattle.std.specs.Prelude.{◌≡◌, All, IfOk, map};
ghost use Rattle.std.specs.List.{enumerate_from, list_any};
ghost use Rattle.rounds_ambiguity.specs.FirstCites.{firsts_view};
ghost use Rattle.rounds_ambiguity.specs.Members.{members};
ghost use Rattle.rounds_ambiguity.specs.SuffixMarks.{
  adds_suffix,
  has_date,
  shows,
  shows_date,
  shows_dates,
  suffix_marks,
  year_suffix_marks,
};
ghost use Rattle.driver_lookup.specs.declared.state.DisambiguateState.TheVariants.{YearSuffix};
ghost use Rattle.driver_passes.specs.Places.{IsPlace};
ghost use Rattle.driver_passes.specs.RendersView.{item_view, items_view, renders_view};

use crate::first_cites::{FirstCite, first_cites};
use crate::members::style_at;
use csl_base::elem::{ElemChildren, ElemMeta};
use csl_base::entry::EntryLike;
use csl_base::taxonomy::DateVariable;
use driver_lookup::state::DisambiguateState;
use driver_passes::renders::{AmbiguousGroup, Marks, SpeculativeCiteRender, SpeculativeItemRender};
use std::alloc::{AllocError, Global};

/// Whether the tree shows an element with this meta, at any depth.
fn shows(tree: &ElemChildren, meta: &ElemMeta) -> bool
    ensures { result ≡ shows meta.now tree.now }
{
    tree.find_meta(meta).is_some()
}

/// Whether the entry has a date.
fn has_date<T: EntryLike>(entry: &T) -> bool
    ensures { result ≡ has_date (T.answers entry.now) }
{
    entry.resolve_date_variable(DateVariable::Issued).is_some()
        || entry
            .resolve_date_variable(DateVariable::Accessed)
            .is_some()
        || entry
            .resolve_date_variable(DateVariable::AvailableDate)
            .is_some()
        || entry
            .resolve_date_variable(DateVariable::EventDate)
            .is_some()
        || entry
            .resolve_date_variable(DateVariable::Submitted)
            .is_some()
        || entry
            .resolve_date_variable(DateVariable::OriginalDate)
            .is_some()
}

/// Whether the cite shows a date, or the citation label of an entry that has one.
fn shows_date<T: EntryLike, P>(item: &SpeculativeItemRender<'_, T, P>) -> bool
    ensures { result ≡ shows_date T.answers (item_view item.now) }
{
    shows(&item.rendered, &ElemMeta::Date)
        || shows(&item.rendered, &ElemMeta::CitationLabel) && has_date(item.entry)
}

/// Whether one of the cites does.
fn some_shows_date<T: EntryLike, P>(items: &[SpeculativeItemRender<'_, T, P>]) -> bool
    ensures { result ≡ list_any (shows_date T.answers) (items_view items.now) }
{
    for item in items {
        if shows_date(item) {
            return true;
        }
    }
    false
}

/// Whether some cite of the document shows a date, or the citation label of an entry that has one:
/// where none does, no suffix is given.
pub fn shows_dates<T: EntryLike, P>(cites: &[SpeculativeCiteRender<'_, '_, T, P>]) -> bool
    ensures { result ≡ shows_dates T.answers (renders_view cites.now) }
{
    for render in cites {
        if some_shows_date(&render.items) {
            return true;
        }
    }
    false
}

/// Whether the style of one of the cites at these places adds suffixes.
fn adds_suffix<T, P>(
    cites: &[SpeculativeCiteRender<'_, '_, T, P>],
    group: &[(usize, usize)],
) -> bool
    requires exist { All (IsPlace (renders_view cites.now)) group.now }
    ensures { result ≡ adds_suffix (members (renders_view cites.now) group.now) }
{
    for place in group {
        if style_at(cites, *place)
            .citation
            .disambiguate_add_year_suffix
        {
            return true;
        }
    }
    false
}

/// A mark for each of the cites, whose suffix is its index among them.
fn numbered<T>(alloc: Global, firsts: &[FirstCite<'_, T>]) -> Result<Marks, AllocError>
    ensures { IfOk result (λ v. v.items
        ≡ map (λ p. (p.1.1, YearSuffix p.0)) (enumerate_from 0 (firsts_view firsts.now))) }
{
    let mut marks = Vec::with_capacity(alloc, firsts.len())?;
    for (k, first) in firsts.iter().enumerate() {
        marks.push((first.place, DisambiguateState::YearSuffix(k)))?;
    }
    Ok(marks)
}

/// A suffix mark for each entry that is cited at these places, at its first cite.
fn suffix_marks<T: EntryLike, P>(
    alloc: Global,
    cites: &[SpeculativeCiteRender<'_, '_, T, P>],
    group: &[(usize, usize)],
) -> Result<Marks, AllocError>
    requires exist { All (IsPlace (renders_view cites.now)) group.now }
    ensures { IfOk result
        (λ v. v.items ≡ suffix_marks T.eq (members (renders_view cites.now) group.now)) }
{
    let firsts = first_cites(alloc, cites, group)?;
    numbered(alloc, firsts.as_slice())
}

/// The suffix marks of an ambiguous group: one for each entry, at its first cite there. The suffix
/// is the index of the entry among those of the group, in the order of their first cites. There are
/// none where no cite of the document shows a date (`shows_dates`), and none where the style of no
/// cite of the group adds suffixes; so an empty group gives no marks.
///
/// # Errors
///
/// Fails where memory is refused.
pub fn disambiguate_year_suffix<T: EntryLike, P>(
    alloc: Global,
    cites: &[SpeculativeCiteRender<'_, '_, T, P>],
    group: &AmbiguousGroup,
) -> Result<Marks, AllocError>
    requires exist { All (IsPlace (renders_view cites.now)) group.now.items }
    ensures { IfOk result (λ v. v.items
        ≡ year_suffix_marks T.eq (shows_dates T.answers (renders_view cites.now))
        (members (renders_view cites.now) group.now.items)) }
{
    disambiguate_dated_year_suffix(alloc, cites, group, shows_dates(cites))
}

/// The same, where `shows_dates` was asked before. The answer is the same for all groups of a
/// round.
///
/// # Errors
///
/// Fails where memory is refused.
pub fn disambiguate_dated_year_suffix<T: EntryLike, P>(
    alloc: Global,
    cites: &[SpeculativeCiteRender<'_, '_, T, P>],
    group: &AmbiguousGroup,
    dated: bool,
) -> Result<Marks, AllocError>
    requires exist { All (IsPlace (renders_view cites.now)) group.now.items }
    ensures { IfOk result (λ v. v.items
        ≡ year_suffix_marks T.eq dated (members (renders_view cites.now) group.now.items)) }
{
    if dated && adds_suffix(cites, group) {
        suffix_marks(alloc, cites, group)
    } else {
        Ok(Vec::new(alloc))
    }
}

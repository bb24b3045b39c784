//! The marks of a round.
ghost use Rattle.std.specs.Prelude.{◌≡◌, IfOk, OnOk};
ghost use Rattle.rounds_ambiguity.specs.SuffixMarks.{shows_dates};
ghost use Rattle.driver_entries.specs.TableView.{table_view};
ghost use Rattle.driver_passes.specs.RendersView.{renders_view};
ghost use Rattle.rounds_rendering.specs.CitesOfTable.{AreCitesOfTable, IsGroupOf};
ghost use Rattle.rounds_rendering.specs.Gathered.{counting_ways, with_group};
ghost use Rattle.rounds_runs.specs.RoundMarks.{round_marks};
ghost use Rattle.rounds_runs.specs.declared.mode.RoundMode.{RoundMode};

use crate::counting::{counting, none_marked, note, waits};
use csl_base::entry::EntryLike;
use driver_entries::table::EntryTable;
use driver_passes::renders::{AmbiguousGroup, Marks, SpeculativeCiteRender};
use rounds_ambiguity::ambiguity::find_ambiguous_sets;
use rounds_ambiguity::choose::disambiguate_with_choose;
use rounds_ambiguity::suffixes::{disambiguate_dated_year_suffix, shows_dates};
use rounds_names::marks::disambiguate_names;
use rounds_runs::mode::RoundMode;
use std::alloc::{AllocError, Global};

/// The marks of a round.
pub(crate) fn round_marks<'a, T: EntryLike, P>(
    alloc: Global,
    cites: &[SpeculativeCiteRender<'_, 'a, T, P>],
    table: &EntryTable<'a, T>,
    mode: RoundMode,
) -> Result<Marks, AllocError>
    requires cites { AreCitesOfTable T.eq (table_view table.now) (renders_view cites.now) }
    ensures { IfOk result
        (λ v. v.items ≡ round_marks mode T.eq T.answers (renders_view cites.now)) }
{
    match mode {
        RoundMode::Three => marks_of_three(alloc, cites),
        RoundMode::Full => marks_of_full(alloc, cites, table),
    }
}

/// The marks of a round of three: those by names of every ambiguous group; and for the first group
/// that can be marked in any way, where it has none by names, its choose marks, or its suffixes
/// where there are none of these either.
fn marks_of_three<T: EntryLike, P>(
    alloc: Global,
    cites: &[SpeculativeCiteRender<'_, '_, T, P>],
) -> Result<Marks, AllocError>
    ensures { IfOk result (λ v. v.items
        ≡ round_marks RoundMode.Three T.eq T.answers (renders_view cites.now)) }
{
    let dated = shows_dates(cites);
    let groups = find_ambiguous_sets(alloc, cites)?;
    let mut marks = Vec::new(alloc);
    for group in &groups {
        add_group(alloc, cites, group, dated, &mut marks)?;
    }
    Ok(marks)
}

/// Adds the marks of a group to those of the groups before it: those by names, and others only
/// where there is no mark yet.
fn add_group<T: EntryLike, P>(
    alloc: Global,
    cites: &[SpeculativeCiteRender<'_, '_, T, P>],
    group: &AmbiguousGroup,
    dated: bool,
    marks: &mut Marks,
) -> Result<(), AllocError>
    requires group { IsGroupOf (renders_view cites.now) group.now.items }
    ensures { OnOk result (marks.new.items
        ≡ with_group T.eq dated (renders_view cites.now) marks.old.items group.now.items) }
{
    marks.append(&mut disambiguate_names(alloc, cites, group)?)?;
    if marks.is_empty() {
        *marks = disambiguate_with_choose(alloc, cites, group)?;
    }
    if marks.is_empty() {
        *marks = disambiguate_dated_year_suffix(alloc, cites, group, dated)?;
    }
    Ok(())
}

/// The marks of a round of as many as mark: of each ambiguous group in turn those that count,
/// unless an entry of it was marked before in this round.
fn marks_of_full<'a, T: EntryLike, P>(
    alloc: Global,
    cites: &[SpeculativeCiteRender<'_, 'a, T, P>],
    table: &EntryTable<'a, T>,
) -> Result<Marks, AllocError>
    requires cites { AreCitesOfTable T.eq (table_view table.now) (renders_view cites.now) }
    ensures { IfOk result (λ v. v.items
        ≡ round_marks RoundMode.Full T.eq T.answers (renders_view cites.now)) }
{
    let dated = shows_dates(cites);
    let groups = find_ambiguous_sets(alloc, cites)?;
    let places = table.places();
    let mut marked = none_marked(alloc, table.len())?;
    let mut marks = Vec::new(alloc);
    for group in &groups {
        if !waits(places, &marked, group) {
            let mut own = counting_marks(alloc, cites, group, dated)?;
            note(places, &mut marked, &own);
            marks.append(&mut own)?;
        }
    }
    Ok(marks)
}

/// The marks of a group that count: those by names; where there are none its choose marks; and its
/// suffixes where there are none of these either.
fn counting_marks<T: EntryLike, P>(
    alloc: Global,
    cites: &[SpeculativeCiteRender<'_, '_, T, P>],
    group: &AmbiguousGroup,
    dated: bool,
) -> Result<Marks, AllocError>
    requires group { IsGroupOf (renders_view cites.now) group.now.items }
    ensures { IfOk result (λ v. v.items
        ≡ counting_ways T.eq dated (renders_view cites.now) group.now.items) }
{
    let by_names = counting(alloc, cites, disambiguate_names(alloc, cites, group)?)?;
    if !by_names.is_empty() {
        return Ok(by_names);
    }
    let chosen = counting(alloc, cites, disambiguate_with_choose(alloc, cites, group)?)?;
    if !chosen.is_empty() {
        return Ok(chosen);
    }
    counting(
        alloc,
        cites,
        disambiguate_dated_year_suffix(alloc, cites, group, dated)?,
    )
}

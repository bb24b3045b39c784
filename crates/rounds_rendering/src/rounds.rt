//! The rounds in which cites that read alike are disambiguated.
ghost use Rattle.std.specs.Prelude.{◌≡◌, IfOk, OnOk, length};
ghost use Rattle.driver_entries.specs.TableView.{table_view};
ghost use Rattle.driver_passes.specs.RendersView.{renders_view};
ghost use Rattle.rounds_rendering.specs.AfterRounds.{AreAfterRounds};
ghost use Rattle.rounds_rendering.specs.CitesOfTable.{AreCitesOfTable};
ghost use Rattle.rounds_rendering.specs.Gathered.{has_round_left};
ghost use Rattle.rounds_runs.specs.FirstRenders.{AreBegun};
ghost use Rattle.rounds_runs.specs.Rerenders.{AreStatesOf};
ghost use Rattle.rounds_runs.specs.RoundMarks.{has_any, round_marks};
ghost use Rattle.rounds_runs.specs.Rounds.{
  StateTable,
  again_tasks,
  at_table,
  marked_by,
  with_marks,
};
ghost use Rattle.rounds_runs.specs.declared.mode.RoundMode.{RoundMode};
ghost use Rattle.driver_writers.specs.Desk.{after, desk};
ghost use Rattle.driver_writers.specs.Writing.{writing_of};

use crate::marks::round_marks;
use crate::rerender::render_marked;
use crate::states::{greatest_marks, no_states, put_before};
use csl_base::entry::EntryLike;
use driver_entries::table::EntryTable;
use driver_lookup::state::DisambiguateState;
use driver_passes::renders::SpeculativeCiteRender;
use driver_writers::counter::Renders;
use driver_writers::writer::CiteWriter;
use rounds_runs::mode::RoundMode;
use std::alloc::Global;

/// What the rounds did.
#[derive(Drop)]
pub struct Rounds {
    /// How many of them marked; the greatest `u128` where more did.
    pub marked: u128,
    /// The states that the entries have after them, by their places in the table; none where no
    /// round marked the entry.
    pub states: Vec<Option<DisambiguateState>>,
}

/// Disambiguates cites that read alike and cite different entries (CSL 1.0.2, disambiguation), in
/// rounds.
///
/// In mode three there are three rounds at most. Each ambiguous group is marked by names. The first
/// group that can be marked in any way gets, where it has no marks by names, choose marks, or
/// suffixes where it has none of these either. In mode full rounds go on until none marks. A mark
/// counts only where it is greater than the state of its entry. Each ambiguous group gets the marks
/// by names that count, or else the choose marks that count, or else the suffixes that count; but a
/// group waits for the next round where an entry of it has a mark from an earlier group.
///
/// An entry with marks gets the greatest of them as its state, and each of its cites is rendered
/// again with it, for its purpose and with no verdict. A round without marks is the last. Each
/// rendering is counted: one in each round that marks for each cite whose entry it marks.
///
/// `cites` are those of the requests that `table` is made of. In mode full none of them may be
/// disambiguated already.
///
/// # Errors
///
/// The writer's; lack of memory among others. Then the cites are of no further use.
pub fn disambiguate<'a, T: EntryLike, P, W: CiteWriter<T, P>>(
    alloc: Global,
    cites: &mut [SpeculativeCiteRender<'_, 'a, T, P>],
    table: &EntryTable<'a, T>,
    mode: RoundMode,
    writer: &mut W,
    counter: &mut Renders,
) -> Result<Rounds, W::Error>
    requires cites { AreCitesOfTable T.eq (table_view table.now) (renders_view cites.old) }
    requires begun { mode ≡ RoundMode.Full → AreBegun (renders_view cites.old) }
    ensures rounds { IfOk result (λ r. (way : W.Way) → W.agrees writer.new way
        → AreAfterRounds mode T.eq (writing_of T.answers (W.state writer.old way))
        (renders_view cites.old) (table_view table.now).entries
        (desk (W.state writer.old way) counter.old)
        (renders_view cites.new) r.states.items r.marked
        (desk (W.state writer.new way) counter.new)) }
    ensures agreed { OnOk result ((way : W.Way) → W.agrees writer.new way
        → W.agrees writer.old way) }
{
    let mut rounds = Rounds {
        marked: 0,
        states: no_states(alloc, table.len())?,
    };
    while has_round_left(mode, rounds.marked) {
        let states = &mut rounds.states;
        if !run_round(alloc, cites, table, mode, states, writer, counter)? {
            return Ok(rounds);
        }
        rounds.marked = rounds.marked.saturating_add(1);
    }
    Ok(rounds)
}

/// Whether a round may follow so many that marked: in mode three there are three at most.
fn has_round_left(mode: RoundMode, marked: u128) -> bool
    ensures { result ≡ has_round_left mode marked }
{
    match mode {
        RoundMode::Three => marked < 3,
        RoundMode::Full => true,
    }
}

/// One round: the cites whose entries get marks are rendered again with these, which are their
/// states from now on. Whether there were any.
fn run_round<'a, T: EntryLike, P, W: CiteWriter<T, P>>(
    alloc: Global,
    cites: &mut [SpeculativeCiteRender<'_, 'a, T, P>],
    table: &EntryTable<'a, T>,
    mode: RoundMode,
    states: &mut [Option<DisambiguateState>],
    writer: &mut W,
    counter: &mut Renders,
) -> Result<bool, W::Error>
    requires cites { AreCitesOfTable T.eq (table_view table.now) (renders_view cites.old) }
    requires long { length states.old ≡ length (table_view table.now).entries }
    ensures again { IfOk result (λ again. again
        ≡ has_any (round_marks mode T.eq T.answers (renders_view cites.old))) }
    ensures marked { OnOk result ((way : W.Way) → W.agrees writer.new way → renders_view cites.new
        ≡ at_table (writing_of T.answers (W.state writer.old way))
        (marked_by mode T.eq (writing_of T.answers (W.state writer.old way))
        (renders_view cites.old)) (renders_view cites.old)) }
    ensures states { OnOk result ((way : W.Way) → W.agrees writer.new way
        → (known : StateTable T)
        → AreStatesOf T.eq (table_view table.now).entries known states.old
        → AreStatesOf T.eq (table_view table.now).entries
        (with_marks (marked_by mode T.eq (writing_of T.answers (W.state writer.old way))
        (renders_view cites.old)) known) states.new) }
    ensures asked { OnOk result ((way : W.Way) → W.agrees writer.new way
        → desk (W.state writer.new way) counter.new
        ≡ after (again_tasks (marked_by mode T.eq (writing_of T.answers (W.state writer.old way))
        (renders_view cites.old))
        (renders_view cites.old)) (desk (W.state writer.old way) counter.old)) }
    ensures agreed { OnOk result ((way : W.Way) → W.agrees writer.new way
        → W.agrees writer.old way) }
{
    let marks = round_marks(alloc, cites, table, mode)?;
    if marks.is_empty() {
        return Ok(false);
    }
    let marked = greatest_marks(alloc, table.places(), table.len(), marks)?;
    render_marked(alloc, cites, table, &marked, writer, counter)?;
    put_before(&marked, states)?;
    Ok(true)
}

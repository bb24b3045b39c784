//! What an answer cost, and how it numbers and disambiguates its entries.
ghost use Rattle.std.specs.Prelude.{◌≡◌, ◌+◌, IfOk, length, map, take};
ghost use Rattle.csl_driver.specs.DraftView.{table_in};
ghost use Rattle.driver_entries.specs.TableView.{table_view};
ghost use Rattle.rounds_runs.specs.Rounds.{told_by};

use crate::draft::Draft;
use csl_base::entry::EntryLike;
use driver_entries::table::EntryTable;
use driver_lookup::state::DisambiguateState;
use driver_writers::counter::Renders;
use rounds_rendering::rounds::Rounds;
use std::alloc::{AllocError, Global};

/// The account of an answer.
#[derive(Drop)]
pub struct Account<'a, T> {
    /// The renderings that were made; the greatest `u128` where there were more.
    pub renders: u128,
    /// The rounds that marked entries; the greatest `u128` where there were more.
    pub rounds: u128,
    /// The distinct entries, in the order of their first cites in the requests.
    pub entries: Vec<&'a T>,
    /// At the same places, by what they are disambiguated.
    pub states: Vec<DisambiguateState>,
    /// At the same places, their final numbers.
    pub numbers: Vec<usize>,
}

impl<'d, 'o, 'a, T: EntryLike, P> Draft<'d, 'o, 'a, T, P> {
    /// The account of an answer, after these rounds and so many renderings. The numbers are those
    /// of the entries, by their places, and behind them that of the next.
    pub(crate) fn account(
        self,
        alloc: Global,
        rounds: Rounds,
        mut numbers: Vec<usize>,
        counter: &Renders,
    ) -> Result<Account<'a, T>, AllocError>
        ensures renders { IfOk result (λ a. a.renders ≡ counter.now) }
        ensures rounds { IfOk result (λ a. a.rounds ≡ rounds.marked) }
        ensures entries { IfOk result (λ a. map (λ e. e.now) a.entries.items
            ≡ (table_in self.entry).entries) }
        ensures states { IfOk result (λ a. a.states.items ≡ map told_by rounds.states.items) }
        ensures numbers { IfOk result (λ a. a.numbers.items
            ≡ take (length (table_in self.entry).entries) numbers.items) }
    {
        let table = &self.cited.table;
        let marked = rounds.marked;
        numbers.truncate(table.len());
        Ok(Account {
            renders: counter.count(),
            rounds: marked,
            entries: table_entries(alloc, table)?,
            states: told_states(alloc, rounds.states)?,
            numbers,
        })
    }
}

/// The entries of a table, in its order.
fn table_entries<'a, T: EntryLike>(
    alloc: Global,
    table: &EntryTable<'a, T>,
) -> Result<Vec<&'a T>, AllocError>
    ensures { IfOk result (λ v. map (λ e. e.now) v.items ≡ (table_view table.now).entries) }
{
    let mut entries = Vec::with_capacity(alloc, table.len())?;
    for place in 0..table.len() {
        entries.push(table.entry(place))?;
    }
    Ok(entries)
}

/// By what entries are disambiguated.
fn told_states(
    alloc: Global,
    states: Vec<Option<DisambiguateState>>,
) -> Result<Vec<DisambiguateState>, AllocError>
    ensures { IfOk result (λ v. v.items ≡ map told_by states.items) }
{
    let mut told = Vec::with_capacity(alloc, states.len())?;
    for state in states {
        told.push(state.unwrap_or(DisambiguateState::None))?;
    }
    Ok(told)
}

//! A table from which each thing is taken out in turn.

use crate::asking::{Asking, Seen};
use crate::by_table::driven;
use document_answer::error::RunError;
use document_requests::rounds::Rounds;
use driver_lookup::state::IbidState;
use host_driver::drive::Driven;
use host_memo::key::{TaskKey, TaskPart};
use host_memo::table::{Table, copied};
use ordered_map::map::OrderedMap;
use ordered_set::set::OrderedSet;
use std::alloc::{AllocError, Global};
use test_recorder::recorder::put_in;

/// Takes each thing out of the table in turn: exactly that has to be missing, and in the mode `csl`
/// perhaps cites that repeat others.
pub fn take_each_out<'a, 'e: 'a>(
    alloc: Global,
    asking: Asking<'a, 'e>,
    table: &Table,
) -> Result<Seen, RunError> {
    for (taken_out, _) in table.as_slice() {
        let others = table_without(alloc, table, taken_out)?;
        if !lacks_alone(alloc, asking, &others, taken_out)? {
            return Ok(Seen::Amiss("what was taken out isn't all that is missing"));
        }
    }
    Ok(Seen::Answer)
}

/// The table without this thing.
fn table_without(alloc: Global, table: &Table, taken_out: &TaskKey) -> Result<Table, AllocError> {
    let mut others = OrderedMap::new(alloc);
    for (key, written) in table.as_slice() {
        if *key != *taken_out {
            put_in(&mut others, key.clone()?, copied(written)?)?;
        }
    }
    Ok(others)
}

/// Whether the table lacks this and nothing else.
fn lacks_alone<'a, 'e: 'a>(
    alloc: Global,
    asking: Asking<'a, 'e>,
    table: &Table,
    key: &TaskKey,
) -> Result<bool, RunError> {
    let driven = driven(alloc, asking, table)?;
    let lacks = match &driven {
        Driven::Answer(_, _) => false,
        Driven::Missing(missing) => match asking.document.job.rounds {
            Rounds::Mode(_) => missing.len() == 1 && has(missing, key),
            Rounds::Csl => lack_nothing_else(missing, key),
        },
    };
    drop(driven);
    Ok(lacks)
}

/// Whether nothing else than this is missing, but for cites that repeat: what is written of a
/// mention decides as what it is repeated.
fn lack_nothing_else(missing: &OrderedSet<TaskKey>, key: &TaskKey) -> bool {
    for other in missing.as_slice() {
        if *other != *key && !repeats(other) {
            return false;
        }
    }
    has(missing, key)
}

/// Whether this is missing.
fn has(missing: &OrderedSet<TaskKey>, key: &TaskKey) -> bool {
    missing.index_of(key).is_some()
}

/// Whether a cite that repeats another is asked for.
fn repeats(key: &TaskKey) -> bool {
    match &key.part {
        TaskPart::Cite(standing, _, _) => standing.ibid != IbidState::Different,
        _ => false,
    }
}

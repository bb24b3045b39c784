//! An answer by a source that has what the layouts wrote: in one pass, and driven until its table
//! lacks nothing.

use crate::asking::{Asking, Driver, Seen};
use crate::by_table::driven;
use crate::costs::{Answer, calls_at_most, cost_the_same, has_account, has_csl_account};
use csl_base::elem::ElemChildren;
use csl_base::entry::PlainEntry;
use csl_driver::error::FinishError;
use csl_driver::request::BibliographyRequest;
use document_answer::error::RunError;
use document_requests::rounds::Rounds;
use driver_writers::cite::Cite;
use host_driver::drive::Driven;
use host_driver::filling::{answer_by, answer_csl_by};
use host_memo::key::TaskKey;
use host_memo::source::Source;
use host_memo::table::{Table, copied};
use ordered_map::map::OrderedMap;
use ordered_set::set::OrderedSet;
use std::alloc::{AllocError, Global};
use test_recorder::recorder::{put_in, tree_alone};

/// Writes what a table has, and an empty tree for the rest; it counts how often it is asked.
#[derive(Drop)]
struct WrittenBefore<'t> {
    table: &'t Table,
    asked: usize,
}

impl<'t> Source for WrittenBefore<'t> {
    type Error = AllocError;

    fn write(&mut self, alloc: Global, key: &TaskKey) -> Result<Cite, AllocError> {
        self.asked = self.asked.saturating_add(1);
        match self.table.get(key) {
            Some(cite) => copied(cite),
            None => Ok(tree_alone(ElemChildren::new(alloc))),
        }
    }
}

/// Answers it by a source that writes what the table has. The answer has to be that of the layouts,
/// all that they wrote has to be asked for, and nothing twice.
pub fn fill_from<'a, 'e: 'a>(
    alloc: Global,
    asking: Asking<'a, 'e>,
    whole: &Table,
    answer: &Answer<'_>,
) -> Result<Seen, RunError> {
    let order = asking.order(alloc)?;
    let (driver, request) = asking.asked(alloc, &order)?;
    let seen = filled(
        alloc,
        &driver,
        &request,
        asking.document.job.rounds,
        whole,
        answer,
    );
    drop(request);
    drop(driver);
    Ok(seen?)
}

/// What is seen of the answer to the request by such a source.
fn filled<'a>(
    alloc: Global,
    driver: &Driver<'a>,
    request: &BibliographyRequest<'_, 'a, PlainEntry>,
    rounds: Rounds,
    whole: &Table,
    answer: &Answer<'_>,
) -> Result<Seen, FinishError<AllocError>> {
    let source = WrittenBefore {
        table: whole,
        asked: 0,
    };
    match rounds {
        Rounds::Mode(mode) => {
            let filled = answer_by(alloc, driver, request, mode, source)?;
            let is_same = filled.rendered == answer.0 && has_account(&answer.1, &filled.account);
            let seen = seen_of(whole, &filled.table, filled.source.asked, is_same);
            drop(filled);
            Ok(seen)
        }
        Rounds::Csl => {
            let filled = answer_csl_by(alloc, driver, request, source)?;
            let is_same = filled.rendered == answer.0
                && has_csl_account(&answer.1, &filled.account);
            let seen = seen_of(whole, &filled.table, filled.source.asked, is_same);
            drop(filled);
            Ok(seen)
        }
    }
}

/// What is seen where a source was asked so often, and the answer is the same or not.
fn seen_of(whole: &Table, table: &Table, asked: usize, is_same: bool) -> Seen {
    if !has_all(whole, table) {
        Seen::Amiss("not all was asked for")
    } else if asked != table.len() {
        Seen::Amiss("something was asked for twice")
    } else if is_same {
        Seen::Answer
    } else {
        Seen::Amiss("another answer by a source")
    }
}

/// Whether all that stands in one table was asked for, so that it stands in the other.
fn has_all(whole: &Table, table: &Table) -> bool {
    whole
        .as_slice()
        .iter()
        .all(|entry| table.contains_key(&entry.0))
}

/// Drives it with an empty table, and puts in what is missing, until nothing is. After three calls
/// more than rounds mark, or ten where works are disambiguated as CSL 1.0.2 has it, the answer has
/// to be that of the layouts.
pub fn drive_to_the_end<'a, 'e: 'a>(
    alloc: Global,
    asking: Asking<'a, 'e>,
    whole: &Table,
    answer: &Answer<'_>,
) -> Result<Seen, RunError> {
    let mut table = OrderedMap::new(alloc);
    for _ in 0..calls_at_most(&answer.1) {
        match driven(alloc, asking, &table)? {
            Driven::Answer(rendered, costs) => {
                let is_it = rendered == answer.0 && cost_the_same(&costs, &answer.1);
                drop(rendered);
                drop(costs);
                return Ok(if is_it {
                    Seen::Answer
                } else {
                    Seen::Amiss("another answer once nothing is missing")
                });
            }
            Driven::Missing(missing) => put_missing(alloc, whole, &missing, &mut table)?,
        }
    }
    Ok(Seen::Amiss("there is no answer after so many calls"))
}

/// Puts what is missing into a table, as the whole one has it.
fn put_missing(
    alloc: Global,
    whole: &Table,
    missing: &OrderedSet<TaskKey>,
    table: &mut Table,
) -> Result<(), AllocError> {
    let mut source = WrittenBefore {
        table: whole,
        asked: 0,
    };
    for key in missing.as_slice() {
        let cite = source.write(alloc, key)?;
        put_in(table, key.clone()?, cite)?;
    }
    Ok(())
}

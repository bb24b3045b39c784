//! A document answered by the layouts of its styles, and again from a table of what these wrote, in
//! styles that have a name in place of their layouts: answer and account have to be the same. Then
//! each thing is taken out of the table, one at a time, and that has to be missing, with nothing
//! beside it in the mode `full` (in the mode `csl`, cites that repeat may be missing too); it is
//! answered by a source that has what is in the table, which may be asked once for each thing; and
//! a table that is empty at first gets what is missing until nothing is.

use crate::asking::{Asking, Driver, Seen};
use crate::costs::{Answer, Costs, cost_the_same, finished_with, in_csl, in_rounds};
use crate::filling::{drive_to_the_end, fill_from};
use crate::hosting::host_styles;
use crate::printing::print_answer;
use crate::taking::take_each_out;
use crate::ways::TableWay;
use csl_base::entry::PlainEntry;
use csl_driver::request::BibliographyRequest;
use csl_driver::terms::TermTables;
use csl_writing::layout_writer::LayoutWriter;
use document_answer::document::Document;
use document_answer::error::RunError;
use document_requests::finders::found_styles;
use document_requests::requests::Targets;
use document_requests::rounds::Rounds;
use document_styles::styles::NamedStyle;
use driver_writers::writer::CiteWriter;
use host_driver::drive::{Driven, drive, drive_csl};
use host_memo::table::Table;
use std::alloc::{AllocError, Global};
use std::convert::Infallible;
use test_recorder::recorder::Recorder;

/// Answers it by the layouts; what they write goes into a table, from which it is answered then.
pub fn by_table<'a, 'e: 'a>(
    rt: &(impl Print + Eprint + AllocGlobal),
    text: &str,
    asking: Asking<'a, 'e>,
    way: TableWay,
) -> Result<Seen, RunError> {
    if let TableWay::Finished(times) = way {
        return finish_often(rt.alloc(), asking, times);
    }
    let _ = eprintln!(rt; "finish_with");
    let mut recorder = Recorder::new(rt.alloc(), &asking.document.styles);
    let seen = recorded_by(rt, text, asking, &mut recorder, way);
    drop(recorder);
    seen
}

/// Answers it so many times by the layouts.
fn finish_often<'a, 'e: 'a>(
    alloc: Global,
    asking: Asking<'a, 'e>,
    times: usize,
) -> Result<Seen, RunError> {
    for _ in 0..times {
        drop(answered_by(alloc, asking, &mut LayoutWriter::new())?);
    }
    Ok(Seen::Answer)
}

/// The answer as this writer writes it.
fn answered_by<'a, 'e: 'a, W: CiteWriter<PlainEntry, Infallible, Error = AllocError>>(
    alloc: Global,
    asking: Asking<'a, 'e>,
    writer: &mut W,
) -> Result<Answer<'a>, RunError> {
    let order = asking.order(alloc)?;
    let (driver, request) = asking.asked(alloc, &order)?;
    Ok(finished_with(driver, request, asking.document.job.rounds, writer)?)
}

fn recorded_by<'a, 'e: 'a>(
    rt: &(impl Print + Eprint + AllocGlobal),
    text: &str,
    asking: Asking<'a, 'e>,
    recorder: &mut Recorder<'_>,
    way: TableWay,
) -> Result<Seen, RunError> {
    let answer = answered_by(rt.alloc(), asking, recorder)?;
    let seen = by_hosts(rt, text, asking.document, &answer, &recorder.table, way);
    drop(answer);
    seen
}

/// Answers it from the table, in the styles of a host.
fn by_hosts(
    rt: &(impl Print + Eprint + AllocGlobal),
    text: &str,
    document: &Document,
    answer: &Answer<'_>,
    table: &Table,
    way: TableWay,
) -> Result<Seen, RunError> {
    let _ = eprintln!(rt; "prepare");
    let hosts = host_styles(rt.alloc(), text)?;
    in_styles(rt, document, &hosts, answer, table, way)
}

/// Answers it from the table, in these styles.
fn in_styles<'d>(
    rt: &(impl Print + Eprint + AllocGlobal),
    document: &'d Document,
    hosts: &'d [NamedStyle],
    answer: &Answer<'_>,
    table: &Table,
    way: TableWay,
) -> Result<Seen, RunError> {
    let alloc = rt.alloc();
    let found = found_styles(alloc, hosts, &document.job)?;
    let files = TermTables::new(alloc, &document.locales)?;
    let targets = Targets {
        styles: &found,
        entries: &document.entries,
        files: &files,
    };
    from_table(rt, alloc, Asking { document, targets }, answer, table, way)
}

fn from_table<'a, 'e: 'a>(
    rt: &(impl Print + Eprint),
    alloc: Global,
    asking: Asking<'a, 'e>,
    answer: &Answer<'_>,
    table: &Table,
    way: TableWay,
) -> Result<Seen, RunError> {
    if let TableWay::Filled(times) = way {
        let _ = eprintln!(rt; "answer_by");
        return fill_often(alloc, asking, table, answer, times);
    }
    let _ = eprintln!(rt; "drive");
    match way {
        TableWay::Driven(times) => drive_often(alloc, asking, table, times),
        _ if !agrees(rt, alloc, asking, table, answer)? => {
            Ok(Seen::Amiss("another answer, or none"))
        }
        _ => take_out_and_fill(alloc, asking, table, answer),
    }
}

/// Takes each thing out of the table in turn; then answers by a source that has all of it, and by a
/// table that gets what it lacks.
fn take_out_and_fill<'a, 'e: 'a>(
    alloc: Global,
    asking: Asking<'a, 'e>,
    table: &Table,
    answer: &Answer<'_>,
) -> Result<Seen, RunError> {
    if let Seen::Amiss(what) = take_each_out(alloc, asking, table)? {
        return Ok(Seen::Amiss(what));
    }
    if let Seen::Amiss(what) = fill_from(alloc, asking, table, answer)? {
        return Ok(Seen::Amiss(what));
    }
    drive_to_the_end(alloc, asking, table, answer)
}

/// Answers it so many times by a source that has what is in the table.
fn fill_often<'a, 'e: 'a>(
    alloc: Global,
    asking: Asking<'a, 'e>,
    table: &Table,
    answer: &Answer<'_>,
    times: usize,
) -> Result<Seen, RunError> {
    for _ in 0..times {
        if let Seen::Amiss(what) = fill_from(alloc, asking, table, answer)? {
            return Ok(Seen::Amiss(what));
        }
    }
    Ok(Seen::Answer)
}

/// Answers it so many times from the table.
fn drive_often<'a, 'e: 'a>(
    alloc: Global,
    asking: Asking<'a, 'e>,
    table: &Table,
    times: usize,
) -> Result<Seen, RunError> {
    for _ in 0..times {
        drop(driven(alloc, asking, table)?);
    }
    Ok(Seen::Answer)
}

/// Prints the answer from the table. Whether it is the same as that of the layouts.
fn agrees<'a, 'e: 'a>(
    rt: &impl Print,
    alloc: Global,
    asking: Asking<'a, 'e>,
    table: &Table,
    answer: &Answer<'_>,
) -> Result<bool, RunError> {
    let driven = driven(alloc, asking, table)?;
    let agrees = match &driven {
        Driven::Answer(rendered, costs) => {
            print_answer(rt, rendered);
            *rendered == answer.0 && cost_the_same(costs, &answer.1)
        }
        Driven::Missing(_) => false,
    };
    drop(driven);
    Ok(agrees)
}

/// What comes of the table.
pub fn driven<'a, 'e: 'a>(
    alloc: Global,
    asking: Asking<'a, 'e>,
    table: &Table,
) -> Result<Driven<Costs<'a>>, RunError> {
    let order = asking.order(alloc)?;
    let (driver, request) = asking.asked(alloc, &order)?;
    match asking.document.job.rounds {
        Rounds::Mode(mode) => {
            let driven = drive(alloc, driver, request, mode, table)?;
            Ok(in_rounds(driven))
        }
        Rounds::Csl => driven_by_csl(alloc, driver, request, table),
    }
}

fn driven_by_csl<'a>(
    alloc: Global,
    driver: Driver<'a>,
    request: BibliographyRequest<'_, 'a, PlainEntry>,
    table: &Table,
) -> Result<Driven<Costs<'a>>, RunError> {
    let driven = drive_csl(alloc, &driver, &request, table);
    drop(request);
    drop(driver);
    Ok(in_csl(driven?))
}

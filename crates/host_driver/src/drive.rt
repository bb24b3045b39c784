//! A driver over a table: the answer, or what the table lacks.
ghost use Rattle.std.specs.Prelude.{IfErr, IfOk};
ghost use Rattle.csl_driver.specs.JobView.{job_of};
ghost use Rattle.csl_driver.specs.Rings.{Refuses};
ghost use Rattle.host_driver.specs.Driven.{IsCslDriven, IsDriven};
ghost use Rattle.host_memo.specs.Written.{found};

use crate::table::TableWriter;
use csl_base::entry::EntryLike;
use csl_driver::account::Account;
use csl_driver::csl_account::CslAccount;
use csl_driver::driver::BibliographyDriver;
use csl_driver::error::DriverError;
use csl_driver::rendered::Rendered;
use driver_passes::request::BibliographyRequest;
use host_memo::key::TaskKey;
use host_memo::laws::key_equality_decides;
use host_memo::table::Table;
use ordered_set::set::OrderedSet;
use rounds_runs::mode::RoundMode;
use std::alloc::Global;

/// What comes of a table, with accounts of this type.
#[derive(Drop)]
pub enum Driven<A> {
    /// The answer and its account, where the table has all that is asked for.
    Answer(Rendered, A),
    /// What is asked for and the table lacks, each once: the host writes it, and asks again. It is
    /// all of the earliest stage (`TaskKey::stage`) of what is lacked; what is of a later one isn't
    /// named yet.
    Missing(OrderedSet<TaskKey>),
}

/// Answers all requests of a driver with what a host has written. The driver stays for the next
/// call.
///
/// Called again and again with what was missing, it answers after at most three calls more than
/// rounds mark. That is tested, and not proved.
///
/// # Errors
///
/// Those of `BibliographyDriver::finish`.
pub fn drive_by<'a, T: EntryLike, P: Eq + Drop>(
    alloc: Global,
    driver: &BibliographyDriver<'a, T, P>,
    request: &BibliographyRequest<'_, 'a, T>,
    mode: RoundMode,
    table: &Table,
) -> Result<Driven<Account<'a, T>>, DriverError>
    ensures driven { IfOk result
        (IsDriven T.eq P.eq T.answers (found table.now) mode (job_of driver.now request.now)) }
    ensures refused { let job = job_of driver.now request.now in
        IfErr result (Refuses T.eq job.requests job.wanted.style job.offset) }
{
    key_equality_decides();
    let mut writer = TableWriter::new(alloc, table);
    let (rendered, account) = driver.answer_with(request, mode, &mut writer)?;
    let TableWriter {
        written: _,
        missing,
    } = writer;
    if missing.is_empty() {
        Ok(Driven::Answer(rendered, account))
    } else {
        Ok(Driven::Missing(missing))
    }
}

/// Answers all requests of a driver with what a host has written, as `drive_by` does, with works
/// disambiguated as CSL 1.0.2 has it. What is compared again is that of names, and then that of the
/// condition `disambiguate`.
///
/// Called again and again with what was missing, it answers at the fifth call at the latest. That
/// is tested, and not proved.
///
/// # Errors
///
/// Those of `BibliographyDriver::finish_csl`.
pub fn drive_csl<'a, T: EntryLike, P: Eq + Drop>(
    alloc: Global,
    driver: &BibliographyDriver<'a, T, P>,
    request: &BibliographyRequest<'_, 'a, T>,
    table: &Table,
) -> Result<Driven<CslAccount<'a, T>>, DriverError>
    ensures driven { IfOk result
        (IsCslDriven T.eq P.eq T.answers (found table.now) (job_of driver.now request.now)) }
    ensures refused { let job = job_of driver.now request.now in
        IfErr result (Refuses T.eq job.requests job.wanted.style job.offset) }
{
    key_equality_decides();
    let mut writer = TableWriter::new(alloc, table);
    let (rendered, account) = driver.answer_csl_with(request, &mut writer)?;
    let TableWriter {
        written: _,
        missing,
    } = writer;
    if missing.is_empty() {
        Ok(Driven::Answer(rendered, account))
    } else {
        Ok(Driven::Missing(missing))
    }
}

/// The same as `drive_by`, of a driver that is used up.
///
/// # Errors
///
/// Those of `BibliographyDriver::finish`.
pub fn drive<'a, T: EntryLike, P: Eq + Drop>(
    alloc: Global,
    driver: BibliographyDriver<'a, T, P>,
    request: BibliographyRequest<'_, 'a, T>,
    mode: RoundMode,
    table: &Table,
) -> Result<Driven<Account<'a, T>>, DriverError>
    ensures driven { IfOk result
        (IsDriven T.eq P.eq T.answers (found table.now) mode (job_of driver.entry request.entry)) }
    ensures refused { let job = job_of driver.entry request.entry in
        IfErr result (Refuses T.eq job.requests job.wanted.style job.offset) }
{
    drive_by(alloc, &driver, &request, mode, table)
}

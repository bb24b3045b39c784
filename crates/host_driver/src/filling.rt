//! Answers by a source.
ghost use Rattle.std.specs.Prelude.{◌≡◌, [], All, IfErr, IfOk};
ghost use Rattle.csl_driver.specs.JobView.{job_of};
ghost use Rattle.csl_driver.specs.Promised.{RefusesWith};
ghost use Rattle.host_driver.specs.Driven.{IsCslWhole, IsWhole, asked_for_all, csl_asked_for_all};
ghost use Rattle.host_memo.specs.Memo.{keys_noted};
ghost use Rattle.host_memo.specs.Written.{found, keys};

use csl_base::entry::EntryLike;
use csl_driver::account::Account;
use csl_driver::csl_account::CslAccount;
use csl_driver::driver::BibliographyDriver;
use csl_driver::error::FinishError;
use driver_assembly::rendered::Rendered;
use driver_passes::request::BibliographyRequest;
use host_memo::laws::key_equality_decides;
use host_memo::memo::Memo;
use host_memo::source::Source;
use host_memo::table::Table;
use rounds_runs::mode::RoundMode;
use std::alloc::Global;

/// An answer, its account, which is of this type, and all that was written for it, by a source that
/// is handed back.
#[derive(Drop)]
pub struct FilledAnswer<A, S> {
    pub rendered: Rendered,
    pub account: A,
    pub table: Table,
    pub source: S,
}

/// Answers all requests of a driver with what the source writes, in one pass. The source is asked
/// once for each thing, in the order in which the table has them.
///
/// # Errors
///
/// `Driver` where `BibliographyDriver::finish` refuses before anything is rendered, so that the
/// source wasn't asked for anything; `Writer`, with the source's own error, where it refuses, and
/// where memory runs out later on.
pub fn answer_by<'a, T: EntryLike, P: Eq + Drop, S: Source + Drop>(
    alloc: Global,
    driver: &BibliographyDriver<'a, T, P>,
    request: &BibliographyRequest<'_, 'a, T>,
    mode: RoundMode,
    source: S,
) -> Result<FilledAnswer<Account<'a, T>, S>, FinishError<S::Error>>
    ensures whole { IfOk result (λ r. IsWhole T.eq P.eq T.answers (found r.table) mode
        (job_of driver.now request.now) (r.rendered, r.account)) }
    ensures asked { IfOk result (λ r. keys r.table ≡ keys_noted T.answers
        (asked_for_all T.eq P.eq T.answers (found r.table) mode (job_of driver.now request.now))
        []) }
    ensures written { IfOk result
        (λ r. ∥ All (λ e. S.may_write r.source e.0 e.1) r.table.entries ∥₁) }
    ensures refused { IfErr result (RefusesWith T.eq (job_of driver.now request.now)) }
{
    key_equality_decides();
    let mut memo = Memo::new(alloc, source);
    let (rendered, account) = driver.answer_with(request, mode, &mut memo)?;
    let Memo { written, source } = memo;
    Ok(FilledAnswer {
        rendered,
        account,
        table: written,
        source,
    })
}

/// Answers all requests of a driver with what the source writes, as `answer_by` does, with works
/// disambiguated as CSL 1.0.2 has it.
///
/// # Errors
///
/// Those of `answer_by`.
pub fn answer_csl_by<'a, T: EntryLike, P: Eq + Drop, S: Source + Drop>(
    alloc: Global,
    driver: &BibliographyDriver<'a, T, P>,
    request: &BibliographyRequest<'_, 'a, T>,
    source: S,
) -> Result<FilledAnswer<CslAccount<'a, T>, S>, FinishError<S::Error>>
    ensures whole { IfOk result (λ r. IsCslWhole T.eq P.eq T.answers (found r.table)
        (job_of driver.now request.now) (r.rendered, r.account)) }
    ensures asked { IfOk result (λ r. keys r.table ≡ keys_noted T.answers
        (csl_asked_for_all T.eq P.eq T.answers (found r.table) (job_of driver.now request.now))
        []) }
    ensures written { IfOk result
        (λ r. ∥ All (λ e. S.may_write r.source e.0 e.1) r.table.entries ∥₁) }
    ensures refused { IfErr result (RefusesWith T.eq (job_of driver.now request.now)) }
{
    key_equality_decides();
    let mut memo = Memo::new(alloc, source);
    let (rendered, account) = driver.answer_csl_with(request, &mut memo)?;
    let Memo { written, source } = memo;
    Ok(FilledAnswer {
        rendered,
        account,
        table: written,
        source,
    })
}

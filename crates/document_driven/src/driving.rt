//! Driven documents: read, and answered with what their hosts have written.
ghost use Rattle.std.specs.Prelude.{◌≡◌, IfErr, IfOk, IsSome, MatchOption, None, string_bytes};
ghost use Rattle.serde_json.specs.View.{view};
ghost use Rattle.csl_driver.specs.JobView.{job_of};
ghost use Rattle.csl_driver.specs.Rings.{Refuses};
ghost use Rattle.host_memo.specs.Written.{found};
ghost use Rattle.document_requests.specs.Faults.{FaultsIn, IsFaultIn};
ghost use Rattle.document_requests.specs.Form.{value_in};
ghost use Rattle.document_requests.specs.Indexes.{ReadsAll};
ghost use Rattle.document_requests.specs.declared.rounds.Rounds.{Rounds};
ghost use Rattle.document_values.specs.Reads.{Faults};
ghost use Rattle.document_answer.specs.Run.{same_plain_entry};
ghost use Rattle.document_driven.specs.Drive.{Drives, TellsIn};
ghost use Rattle.document_driven.specs.DrivenForm.{driven_document_form, driven_form};
ghost use Rattle.document_driven.specs.DrivenView.{driven_view};

use crate::printing::driven_text;
use crate::reading::{driven_top_of, table_at};
use crate::styles::driven_styles_of;
use csl_base::entry::PlainEntry;
use csl_driver::driver::BibliographyDriver;
use csl_driver::error::DriverError;
use csl_driver::request::BibliographyRequest;
use document_answer::document::Document;
use document_answer::error::RunError;
use document_answer::filling::{bibliography_order, bibliography_request, filled_driver};
use document_requests::document::{job_in, read_value};
use document_requests::entries::entries_of;
use document_requests::finders::found_styles;
use document_requests::requests::Targets;
use document_requests::rounds::Rounds;
use document_values::error::ReadError;
use document_values::fault::Fault;
use driver_styles::terms::TermTables;
use host_driver::drive::{drive_by, drive_csl};
use host_memo::table::Table;
use rounds_runs::mode::RoundMode;
use serde_json::Value;
use std::alloc::{AllocError, Global};
use std::convert::Infallible;

/// A driven document: what it asks for, in styles that a host knows by their names, and what the
/// host has written. It borrows nothing.
#[derive(Drop)]
pub struct DrivenDocument {
    pub document: Document,
    pub table: Table,
}

/// Reads a driven document from a JSON value.
#[tactic(auto, unfolding(crate::specs::DrivenForm::driven_document_form, crate::specs::DrivenForm::driven_by))]
fn driven_document_of(alloc: Global, value: &Value) -> Result<DrivenDocument, ReadError>
    ensures read { ReadsAll driven_view result (driven_document_form (view value.now)) }
    ensures fault { Faults result (view value.now) }
{
    let object = driven_top_of(alloc, value)?;
    let styles = driven_styles_of(alloc, object)?;
    let entries = entries_of(alloc, object)?;
    let job = job_in(alloc, &styles, &entries, object)?;
    let table = table_at(alloc, object, &styles, &entries)?;
    let document = Document {
        styles,
        locales: Vec::new(alloc),
        entries,
        job,
    };
    Ok(DrivenDocument { document, table })
}

type Driver<'e> = BibliographyDriver<'e, PlainEntry, Infallible>;

/// The text of what comes of a driver in a mode of rounds, with what is in this table.
fn text_of_rounds<'e>(
    alloc: Global,
    driver: &Driver<'e>,
    request: &BibliographyRequest<'_, 'e, PlainEntry>,
    mode: RoundMode,
    table: &Table,
) -> Result<String, DriverError>
    ensures told { IfOk result (λ s. TellsIn (Rounds.Mode mode) (found table.now)
        (job_of driver.now request.now) (string_bytes s)) }
    ensures refused { let job = job_of driver.now request.now in
        IfErr result (Refuses same_plain_entry job.requests job.wanted.style job.offset) }
{
    let driven = drive_by(alloc, driver, request, mode, table)?;
    Ok(driven_text(alloc, driven)?)
}

/// The same where works are disambiguated as CSL 1.0.2 has it.
fn text_of_csl<'e>(
    alloc: Global,
    driver: &Driver<'e>,
    request: &BibliographyRequest<'_, 'e, PlainEntry>,
    table: &Table,
) -> Result<String, DriverError>
    ensures told { IfOk result (λ s. TellsIn Rounds.Csl (found table.now)
        (job_of driver.now request.now) (string_bytes s)) }
    ensures refused { let job = job_of driver.now request.now in
        IfErr result (Refuses same_plain_entry job.requests job.wanted.style job.offset) }
{
    let driven = drive_csl(alloc, driver, request, table)?;
    Ok(driven_text(alloc, driven)?)
}

/// The text of what comes of a driver in this mode, with what is in this table.
fn text_in<'e>(
    alloc: Global,
    driver: &Driver<'e>,
    request: &BibliographyRequest<'_, 'e, PlainEntry>,
    rounds: Rounds,
    table: &Table,
) -> Result<String, DriverError>
    ensures told { IfOk result (λ s. TellsIn rounds (found table.now)
        (job_of driver.now request.now) (string_bytes s)) }
    ensures refused { let job = job_of driver.now request.now in
        IfErr result (Refuses same_plain_entry job.requests job.wanted.style job.offset) }
{
    match rounds {
        Rounds::Mode(mode) => text_of_rounds(alloc, driver, request, mode, table),
        Rounds::Csl => text_of_csl(alloc, driver, request, table),
    }
}

impl DrivenDocument {
    /// The driven document of these bytes.
    ///
    /// # Errors
    /// `Document`, with the first fault, where the bytes are no driven document; `OutOfMemory`
    /// where memory is refused.
    #[tactic(auto, unfolding(crate::specs::DrivenForm::driven_form))]
    pub fn parse(alloc: Global, bytes: &[u8]) -> Result<DrivenDocument, ReadError>
        ensures read { ReadsAll driven_view result (driven_form bytes.now) }
        ensures fault { FaultsIn result (value_in bytes.now) }
    {
        let value = read_value(alloc, bytes)?;
        driven_document_of(alloc, &value)
    }

    /// A fault of the bytes, where they are no driven document. It is the first that is met (this
    /// is tested, not proved): in the styles, then the entries, the rounds, the requests, the
    /// bibliography, the offset, and last in what was written; and of each object first in its keys
    /// and then in its members, in the order in which the form names them.
    ///
    /// # Errors
    /// Where memory is refused.
    pub fn first_fault(alloc: Global, bytes: &[u8]) -> Result<Option<Fault>, AllocError>
        ensures { IfOk result (λ found. MatchOption found (IsSome (driven_form bytes.now))
            (λ fault. (driven_form bytes.now ≡ None) × IsFaultIn fault (value_in bytes.now))) }
    {
        match DrivenDocument::parse(alloc, bytes) {
            Ok(_) => Ok(None),
            Err(ReadError::Document(fault)) => Ok(Some(Box::into_inner(fault))),
            Err(ReadError::OutOfMemory) => Err(AllocError),
        }
    }

    /// What comes of it, as JSON: `{"answer": ..}`, where all that is asked for was written, and
    /// else `{"missing": [..]}`, the tasks that are missing, each once.
    ///
    /// # Errors
    /// `MacroRing` and `NumberOverflow` only where the driver refuses it; `OutOfMemory` where memory
    /// is refused; `Document` where an index of its job points to nothing, as none does in a
    /// document that was read.
    pub fn drive(&self, alloc: Global) -> Result<String, RunError>
        ensures { Drives result (driven_view self.now) }
    {
        let document = &self.document;
        let found = found_styles(alloc, &document.styles, &document.job)?;
        let files = TermTables::new(alloc, &document.locales)?;
        let targets = Targets {
            styles: &found,
            entries: &document.entries,
            files: &files,
        };
        let job = &document.job;
        let driver = filled_driver(alloc, &job.requests, targets, job.offset)?;
        let order = bibliography_order(alloc, &job.wanted, targets.entries)?;
        let request = bibliography_request(alloc, &job.wanted, &order, targets)?;
        let text = text_in(alloc, &driver, &request, job.rounds, &self.table)?;
        Ok(text)
    }
}

/// What comes of the driven document of these bytes, as JSON. The document's own JSON is dropped
/// before anything is answered.
///
/// # Errors
/// `Document` where the bytes are no driven document; `MacroRing` and `NumberOverflow` where the
/// driver refuses it; `OutOfMemory` where memory is refused.
pub fn drive_bytes(alloc: Global, bytes: &[u8]) -> Result<String, RunError>
    ensures { Drives result (driven_form bytes.now) }
{
    let driven = DrivenDocument::parse(alloc, bytes)?;
    driven.drive(alloc)
}

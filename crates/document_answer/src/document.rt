//! A document as a value of its own.
ghost use Rattle.std.specs.Prelude.{◌≡◌, IfOk, IsSome, MatchOption, None};
ghost use Rattle.serde_json.specs.View.{view};
ghost use Rattle.csl_driver.specs.JobView.{job_of};
ghost use Rattle.csl_driver.specs.Promised.{FinishesWith};
ghost use Rattle.document_requests.specs.Faults.{FaultsIn, IsFaultIn};
ghost use Rattle.document_requests.specs.Form.{document_form, form, value_in};
ghost use Rattle.document_requests.specs.FoundView.{unnamed};
ghost use Rattle.document_requests.specs.Indexes.{ReadsAll};
ghost use Rattle.document_values.specs.Reads.{Faults};
ghost use Rattle.document_answer.specs.DocumentView.{document_view};
ghost use Rattle.document_answer.specs.Limited.{ChecksEach};
ghost use Rattle.document_answer.specs.Run.{IsRunAnswer, answer_in, same_plain_entry};

use crate::error::RunError;
use crate::filling::{bibliography_order, bibliography_request, filled_driver};
use crate::limits::{LimitError, check_styles};
use csl_base::entry::PlainEntry;
use csl_base::locale::Locale;
use csl_driver::driver::BibliographyDriver;
use csl_driver::error::FinishError;
use csl_driver::layout_writer::LayoutWriter;
use csl_driver::rendered::Rendered;
use csl_driver::request::BibliographyRequest;
use csl_driver::terms::TermTables;
use document_requests::document::{Job, job_in, read_value, top_of};
use document_requests::entries::entries_of;
use document_requests::finders::found_styles;
use document_requests::requests::Targets;
use document_requests::rounds::Rounds;
use document_styles::locales::locales_at;
use document_styles::styles::{NamedStyle, styles_of};
use document_values::error::ReadError;
use document_values::fault::Fault;
use driver_styles::limits::Limits;
use serde_json::Value;
use std::alloc::{AllocError, Global};
use std::convert::Infallible;

/// A document: its styles, its locales and its entries, and what is asked of them, by their
/// indexes. It borrows nothing, so its JSON can be dropped before anything is rendered.
#[derive(Drop)]
pub struct Document {
    /// The styles, by their names.
    pub styles: Vec<NamedStyle>,
    /// The locales that are asked for terms that a style doesn't have.
    pub locales: Vec<Locale>,
    pub entries: Vec<PlainEntry>,
    pub job: Job,
}

/// Reads a document from a JSON value.
#[tactic(auto, unfolding(document_requests::specs::Form::document_form))]
fn document_of(alloc: Global, value: &Value) -> Result<Document, ReadError>
    ensures read { ReadsAll document_view result (document_form (view value.now)) }
    ensures fault { Faults result (view value.now) }
{
    let object = top_of(alloc, value)?;
    let styles = styles_of(alloc, object)?;
    let locales = locales_at(alloc, object, "locales")?;
    let entries = entries_of(alloc, object)?;
    let job = job_in(alloc, &styles, &entries, object)?;
    Ok(Document {
        styles,
        locales,
        entries,
        job,
    })
}

/// The answer of a driver in this mode, written by layouts.
fn answer_in<'e>(
    driver: &BibliographyDriver<'e, PlainEntry, Infallible>,
    request: &BibliographyRequest<'_, 'e, PlainEntry>,
    rounds: Rounds,
) -> Result<Rendered, FinishError<AllocError>>
    ensures { FinishesWith same_plain_entry (job_of driver.now request.now)
        (λ r. r ≡ answer_in rounds (job_of driver.now request.now)) result }
{
    let mut writer = LayoutWriter::new();
    match rounds {
        Rounds::Mode(mode) => {
            let (rendered, _account) = driver.answer_with(request, mode, &mut writer)?;
            Ok(rendered)
        }
        Rounds::Csl => {
            let (rendered, _account) = driver.answer_csl_with(request, &mut writer)?;
            Ok(rendered)
        }
    }
}

impl Document {
    /// The document of these bytes.
    ///
    /// # Errors
    /// `Document`, with the first fault, where the bytes are no document; `OutOfMemory` where
    /// memory is refused.
    #[tactic(auto, unfolding(document_requests::specs::Form::form))]
    pub fn parse(alloc: Global, bytes: &[u8]) -> Result<Document, ReadError>
        ensures read { ReadsAll document_view result (form bytes.now) }
        ensures fault { FaultsIn result (value_in bytes.now) }
    {
        let value = read_value(alloc, bytes)?;
        document_of(alloc, &value)
    }

    /// A fault of the bytes, where they are no document. It is the first that is met (this is
    /// tested, not proved): in the styles, then the locales, the entries, the rounds, the requests,
    /// the bibliography and the offset, and of each object first in its keys and then in its
    /// members, in the order in which the form names them.
    ///
    /// # Errors
    /// Where memory is refused.
    pub fn first_fault(alloc: Global, bytes: &[u8]) -> Result<Option<Fault>, AllocError>
        ensures { IfOk result (λ found. MatchOption found (IsSome (form bytes.now))
            (λ fault. (form bytes.now ≡ None) × IsFaultIn fault (value_in bytes.now))) }
    {
        match Document::parse(alloc, bytes) {
            Ok(_) => Ok(None),
            Err(ReadError::Document(fault)) => Ok(Some(Box::into_inner(fault))),
            Err(ReadError::OutOfMemory) => Err(AllocError),
        }
    }

    /// The answer to the document, in its mode.
    ///
    /// # Errors
    /// `MacroRing` and `NumberOverflow` only where the driver refuses the document, and there no
    /// answer is given; `OutOfMemory` where memory is refused; `Document` where an index of the job
    /// points to nothing, as none does in a document that was read.
    pub fn answer(&self, alloc: Global) -> Result<Rendered, RunError>
        ensures { IsRunAnswer result (document_view self.now) }
    {
        let found = found_styles(alloc, &self.styles, &self.job)?;
        let files = TermTables::new(alloc, &self.locales)?;
        let targets = Targets {
            styles: &found,
            entries: &self.entries,
            files: &files,
        };
        let driver = filled_driver(alloc, &self.job.requests, targets, self.job.offset)?;
        let order = bibliography_order(alloc, &self.job.wanted, targets.entries)?;
        let request = bibliography_request(alloc, &self.job.wanted, &order, targets)?;
        let rendered = answer_in(&driver, &request, self.job.rounds)?;
        Ok(rendered)
    }

    /// Whether each layout of each style is within the limits. A style whose macros call each other
    /// in a ring passes: a document that asks for it has no answer. Nothing is rendered.
    ///
    /// # Errors
    /// `Exceeded` with a limit that a layout exceeds; `OutOfMemory` where memory is refused.
    pub fn check_limits(&self, alloc: Global, limits: &Limits) -> Result<(), LimitError>
        ensures { ChecksEach limits.now (unnamed self.now.styles.items) result }
    {
        check_styles(alloc, &self.styles, limits)
    }
}

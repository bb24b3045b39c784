//! What a document asks for, and what is seen of the calls that answer it.

use csl_base::entry::PlainEntry;
use csl_driver::driver::BibliographyDriver;
use csl_driver::request::BibliographyRequest;
use document_answer::document::Document;
use document_answer::error::RunError;
use document_answer::filling::{bibliography_order, bibliography_request, filled_driver};
use document_requests::requests::Targets;
use std::alloc::Global;
use std::convert::Infallible;

/// A driver of the entries of a document.
pub type Driver<'e> = BibliographyDriver<'e, PlainEntry, Infallible>;

/// What was seen of the calls.
#[derive(Clone, Copy)]
pub enum Seen {
    /// Each was answered.
    Answer,
    /// Each was answered, after a refused request was handed in again.
    AnswerAtLast,
    /// Something that may never be.
    Amiss(&'static str),
}

/// A document, and what the indexes of its job point to.
#[derive(Clone, Copy)]
pub struct Asking<'d, 'f> {
    pub document: &'d Document,
    pub targets: Targets<'d, 'f>,
}

impl<'d, 'f: 'd> Asking<'d, 'f> {
    /// The order of the bibliography.
    pub fn order(&self, alloc: Global) -> Result<Option<Vec<&'d PlainEntry>>, RunError> {
        bibliography_order(alloc, &self.document.job.wanted, self.targets.entries)
    }

    /// What the driver is asked of the bibliography, of the prepared style, if there is one.
    pub fn wanted<'o>(
        &self,
        alloc: Global,
        order: &'o Option<Vec<&'d PlainEntry>>,
    ) -> Result<BibliographyRequest<'o, 'd, PlainEntry>, RunError> {
        bibliography_request(alloc, &self.document.job.wanted, order, self.targets)
    }

    /// The driver that has taken the requests, and what it is asked of the bibliography.
    pub fn asked<'o>(
        &self,
        alloc: Global,
        order: &'o Option<Vec<&'d PlainEntry>>,
    ) -> Result<(Driver<'d>, BibliographyRequest<'o, 'd, PlainEntry>), RunError> {
        let request = self.wanted(alloc, order)?;
        let job = &self.document.job;
        let driver = filled_driver(alloc, &job.requests, self.targets, job.offset)?;
        Ok((driver, request))
    }
}

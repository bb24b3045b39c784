//! The citations of a call.
use crate::error::{CallError, no_item};
use crate::json::{no_json, no_utf8, wrong_part};
use crate::reader::TextReader;
use crate::texts::TextName;
use cite_json::fault::CitationsError;
use cite_json::notes::number_notes;
use cite_json::reading::{ReadCitations, read_citations};
use cite_json::unknown::{KnownItems, unknown_items, with_missing};
use cite_tasks::cites::Citation;
use fault_places::place::FaultPlace;
use reference_values::reference::References;
use std::alloc::{AllocError, Global};

impl TextReader {
    /// The citations of JSON, whose cites are of these items. Where some have the number of a
    /// note, each has one.
    ///
    /// # Errors
    ///
    /// `Fault` where the text is none, or cites another item; `OutOfMemory`.
    pub(crate) fn citations(
        &mut self,
        bytes: &[u8],
        references: &References,
    ) -> Result<Vec<Citation>, CallError> {
        let read = self.citations_of_any(bytes)?;
        check_ids(self.alloc, &read.citations, references)?;
        Ok(read.citations)
    }

    /// The citations of a draft, whose cites of other items than these are missing ones; `sorts`
    /// says whether the style sorts cites.
    ///
    /// # Errors
    ///
    /// `Fault` where the text is none; `OutOfMemory`.
    pub(crate) fn drafted_citations(
        &mut self,
        bytes: &[u8],
        references: &References,
        sorts: bool,
    ) -> Result<Vec<Citation>, CallError> {
        let read = self.citations_of_any(bytes)?;
        self.warn_of_unknown(&read.citations, references)?;
        Ok(with_missing(self.alloc, &read.citations, references, sorts)?)
    }

    /// Warns of the cites of other items than these.
    ///
    /// # Errors
    ///
    /// Where memory is refused.
    pub fn warn_of_unknown<I: KnownItems>(
        &mut self,
        citations: &[Citation],
        items: &I,
    ) -> Result<(), AllocError> {
        for item in unknown_items(self.alloc, citations, items)? {
            let pointer = id_pointer(self.alloc, item.citation, item.cite)?;
            self.warn(TextName::Citations, FaultPlace::Pointer(pointer), &item)?;
        }
        Ok(())
    }

    /// The citations of JSON, with their ids, whatever items they cite. Where some have the number
    /// of a note, each has one. The warnings are those of the reader.
    ///
    /// # Errors
    ///
    /// `Fault` where the text is none; `OutOfMemory`.
    pub fn citations_of_any(&mut self, bytes: &[u8]) -> Result<ReadCitations, CallError> {
        match read_citations(self.alloc, bytes) {
            Ok(read) => {
                for warning in &read.warnings {
                    self.warn_of_part(TextName::Citations, &warning.pointer, &warning.kind)?;
                }
                let mut read = read;
                number_notes(self.alloc, &mut read.citations)?;
                Ok(read)
            }
            Err(error) => Err(citations_refusal(self.alloc, &error)),
        }
    }
}

/// Why a text has no citations.
fn citations_refusal(alloc: Global, error: &CitationsError) -> CallError {
    match error {
        CitationsError::NoUtf8 { byte } => no_utf8(alloc, TextName::Citations, *byte),
        CitationsError::NoJson { line, column } => {
            no_json(alloc, TextName::Citations, *line, *column)
        }
        CitationsError::Fault(fault) => {
            wrong_part(alloc, TextName::Citations, &fault.pointer, &fault.wanted)
        }
        CitationsError::OutOfMemory => CallError::OutOfMemory,
    }
}

/// Refuses a cite of an item that isn't there.
///
/// # Errors
///
/// `Fault` at the first such cite; `OutOfMemory`.
pub fn check_ids<I: KnownItems>(
    alloc: Global,
    citations: &[Citation],
    items: &I,
) -> Result<(), CallError> {
    for (number, citation) in citations.iter().enumerate() {
        for (place, cite) in citation.cites.iter().enumerate() {
            let id = cite.id.as_str();
            if !items.has(id) {
                let pointer = id_pointer(alloc, number, place)?;
                return Err(no_item(alloc, pointer, id));
            }
        }
    }
    Ok(())
}

/// The way to the id of a cite: `number` is the place of its citation, and `place` its own there,
/// both from 0.
fn id_pointer(alloc: Global, number: usize, place: usize) -> Result<String, AllocError> {
    format!(in alloc; "/{number}/{place}/id")
}

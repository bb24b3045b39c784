//! The first fault of a driven document as JSON.
ghost use Rattle.document_requests.specs.Form.{value_in};
ghost use Rattle.document_answer.specs.TellsFault.{TellsFault};
ghost use Rattle.document_driven.specs.DrivenForm.{driven_form};

use crate::driving::DrivenDocument;
use document_answer::error::RunError;
use document_answer::faults::print_fault;
use std::alloc::Global;

/// The first fault of the bytes as JSON, where they are no driven document; and no text where they
/// are one.
///
/// # Errors
/// `OutOfMemory` where memory is refused, and no other.
pub fn print_driven_fault_bytes(alloc: Global, bytes: &[u8]) -> Result<String, RunError>
    ensures { TellsFault result (driven_form bytes.now) (value_in bytes.now) }
{
    match DrivenDocument::first_fault(alloc, bytes)? {
        None => Ok(String::new(alloc)),
        Some(fault) => Ok(print_fault(alloc, &fault)?),
    }
}

//! Why a part of a document isn't read.
ghost use Rattle.std.specs.Prelude.{◌≡◌, Some};
ghost use Rattle.serde_json.specs.Data.{Data};
ghost use Rattle.serde_json.specs.Find.{at, get};
ghost use Rattle.document_values.specs.Faults.{into, IsFaultOf};
ghost use Rattle.document_values.specs.Reads.{IsErrorOf, RefusesToo};

use crate::fault::{Fault, Step};
use std::alloc::{AllocError, AllocFailed, Global};
use thiserror::Error;

/// Why a part of a document isn't read.
#[derive(Debug, Drop, Error)]
pub enum ReadError {
    /// It isn't of its form. The fault is one of the value that was to be read.
    #[error("not of the form of a document")]
    Document(Box<Fault>),
    /// There was no memory left.
    #[error("out of memory")]
    OutOfMemory,
}

/// The fault with one more step around its way.
fn one_step_out(mut fault: Box<Fault>, step: Step) -> ReadError
    ensures { (whole part : Data) → into step whole ≡ Some part → IsFaultOf fault.value part
        → IsErrorOf result whole }
{
    match fault.path.push(step) {
        Ok(()) => ReadError::Document(fault),
        Err(_) => ReadError::OutOfMemory,
    }
}

impl ReadError {
    /// The error of a part, as one of the object that has the part under this key.
    pub fn under(self, alloc: Global, key: &str) -> ReadError
        ensures refuses { RefusesToo self result }
        ensures fault { (whole part : Data) → get key.now whole ≡ Some part → IsErrorOf self part
            → IsErrorOf result whole }
    {
        let ReadError::Document(fault) = self else {
            return ReadError::OutOfMemory;
        };
        match String::from_str(alloc, key) {
            Ok(key) => one_step_out(fault, Step::Key(key)),
            Err(_) => ReadError::OutOfMemory,
        }
    }

    /// The error of a part, as one of the list that has the part at this place, from 0.
    pub fn in_item(self, place: usize) -> ReadError
        ensures refuses { RefusesToo self result }
        ensures fault { (whole part : Data) → at place whole ≡ Some part → IsErrorOf self part
            → IsErrorOf result whole }
    {
        match self {
            ReadError::Document(fault) => one_step_out(fault, Step::Item(place)),
            ReadError::OutOfMemory => ReadError::OutOfMemory,
        }
    }
}

impl From<AllocError> for ReadError {
    ghost use Rattle.std.specs.Prelude.{◌≡◌};
    ghost use Rattle.document_values.specs.declared.error.ReadError.TheVariants.{OutOfMemory};

    ghost from_gives = { λ _ e. e ≡ OutOfMemory };

    fn from(_error: AllocError) -> ReadError {
        ReadError::OutOfMemory
    }
}

impl<T: Drop> From<AllocFailed<T>> for ReadError {
    ghost use Rattle.std.specs.Prelude.{◌≡◌};
    ghost use Rattle.document_values.specs.declared.error.ReadError.TheVariants.{OutOfMemory};

    ghost from_gives = { λ _ e. e ≡ OutOfMemory };

    fn from(_error: AllocFailed<T>) -> ReadError {
        ReadError::OutOfMemory
    }
}

//! Why the program ends without an answer.
ghost use Rattle.std.specs.Prelude.{◌≡◌};
ghost use Rattle.document_answer.specs.Status.{status};

use csl_driver::error::{DriverError, FinishError, RingLocation};
use document_values::error::ReadError;
use std::alloc::{AllocError, AllocFailed};
use thiserror::Error;

/// Why a run ends without an answer, with the line that standard error gets.
#[derive(Debug, Drop, Error)]
pub enum RunError {
    /// A read of the input failed, or it didn't end within the reads that are made; or a write of
    /// the output failed.
    #[error("cite_run: input or output failed")]
    Output,
    /// The input isn't JSON, or not the form of a document; or an index of what a document asks for
    /// points to nothing, as none does in a document that was read.
    #[error("cite_run: document refused")]
    Document,
    /// The macros of a style call each other in a ring: where the first such style is asked for,
    /// and the index of its first macro on a ring.
    #[error("cite_run: macro ring")]
    MacroRing {
        place: RingLocation,
        macro_index: usize,
    },
    /// The offset and the number of cited entries together are above the greatest `usize`.
    #[error("cite_run: number overflow")]
    NumberOverflow,
    /// There was no memory left.
    #[error("cite_run: out of memory")]
    OutOfMemory,
}

impl RunError {
    /// The exit status of the program, which is 0 where there is no error.
    pub fn status(&self) -> u8
        ensures { result ≡ status self.now }
    {
        match self {
            RunError::Output => 1,
            RunError::Document => 2,
            RunError::MacroRing { .. } => 3,
            RunError::NumberOverflow => 4,
            RunError::OutOfMemory => 5,
        }
    }
}

impl From<AllocError> for RunError {
    ghost use Rattle.std.specs.Prelude.{◌≡◌};
    ghost use Rattle.document_answer.specs.declared.error.RunError.TheVariants.{OutOfMemory};

    ghost from_gives = { λ _ e. e ≡ OutOfMemory };

    fn from(_error: AllocError) -> RunError {
        RunError::OutOfMemory
    }
}

impl<T: Drop> From<AllocFailed<T>> for RunError {
    ghost use Rattle.std.specs.Prelude.{◌≡◌};
    ghost use Rattle.document_answer.specs.declared.error.RunError.TheVariants.{OutOfMemory};

    ghost from_gives = { λ _ e. e ≡ OutOfMemory };

    fn from(_error: AllocFailed<T>) -> RunError {
        RunError::OutOfMemory
    }
}

impl From<ReadError> for RunError {
    ghost use Rattle.std.specs.Prelude.{◌≡◌};
    ghost use Rattle.document_answer.specs.Status.{refusal};

    ghost from_gives = { λ read e. e ≡ refusal read };

    fn from(error: ReadError) -> RunError {
        match error {
            ReadError::Document(_) => RunError::Document,
            ReadError::OutOfMemory => RunError::OutOfMemory,
        }
    }
}

impl From<DriverError> for RunError {
    ghost use Rattle.std.specs.Prelude.{◌≡◌};
    ghost use Rattle.document_answer.specs.Status.{refused};

    ghost from_gives = { λ driver e. e ≡ refused driver };

    fn from(error: DriverError) -> RunError {
        match error {
            DriverError::MacroRing { place, macro_index } => RunError::MacroRing {
                place,
                macro_index,
            },
            DriverError::NumberOverflow => RunError::NumberOverflow,
            DriverError::OutOfMemory(_) => RunError::OutOfMemory,
        }
    }
}

impl From<FinishError<AllocError>> for RunError {
    ghost use Rattle.std.specs.Prelude.{◌≡◌};
    ghost use Rattle.csl_driver.specs.OwnError.{own_error};
    ghost use Rattle.document_answer.specs.Status.{refused};

    ghost from_gives = { λ finish e. e ≡ refused (own_error finish) };

    fn from(error: FinishError<AllocError>) -> RunError {
        RunError::from(DriverError::from(error))
    }
}

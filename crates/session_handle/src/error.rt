//! Why a call on a handle did nothing.
ghost use Rattle.std.specs.Prelude.{◌≡◌};
ghost use Rattle.session_handle.specs.Status.{session_status};

use cite_inputs::error::CallError;
use std::alloc::{AllocError, AllocFailed};

/// Why a call on a handle did nothing.
#[derive(Debug, Drop)]
pub enum SessionError {
    /// The handle has no session.
    NotOpen,
    /// The session gives an error.
    Call(CallError),
}

impl SessionError {
    /// Its status: 11 where no session is open, or that of the call.
    pub fn status(&self) -> u8
        ensures { result ≡ session_status self.now }
    {
        match self {
            SessionError::NotOpen => 11,
            SessionError::Call(error) => error.status(),
        }
    }
}

impl From<CallError> for SessionError {
    fn from(error: CallError) -> SessionError {
        SessionError::Call(error)
    }
}

impl From<AllocError> for SessionError {
    fn from(_error: AllocError) -> SessionError {
        SessionError::Call(CallError::OutOfMemory)
    }
}

impl<T: Drop> From<AllocFailed<T>> for SessionError {
    fn from(_error: AllocFailed<T>) -> SessionError {
        SessionError::Call(CallError::OutOfMemory)
    }
}

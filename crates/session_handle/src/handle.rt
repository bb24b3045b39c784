//! The pointer that callers in C hold.
ghost use Rattle.session_handle.specs.Handle.{holds};
ghost use Rattle.session_handle.specs.contracts.held.HeldSession.{the_row};

use crate::asking::{Asked, Edit};
use crate::error::SessionError;
use crate::held::HeldSession;
use crate::loose::Loose;
use std::alloc::Global;
use std::marker::Model;
use std::mem::replace;
use std::ptr::null_mut;

/// A session, or none where the pointer is null.
#[repr(C)]
pub struct SessionHandle {
    at: *mut u8,
}

impl Model for SessionHandle {
    ghost also_owns = { λ h. holds the_row h.at };
}

impl SessionHandle {
    fn empty() -> SessionHandle {
        SessionHandle { at: null_mut() }
    }

    fn of_loose(loose: Loose<HeldSession, Global>) -> SessionHandle {
        let Loose { at, alloc: _ } = loose;
        SessionHandle { at: at as *mut u8 }
    }

    fn into_loose(self, alloc: Global) -> Option<Loose<HeldSession, Global>> {
        let SessionHandle { at } = self;
        if at.is_null() {
            None
        } else {
            Some(Loose {
                at: at as *mut HeldSession,
                alloc,
            })
        }
    }

    /// Puts a session in, or none, and gives what there was.
    fn exchange(
        &mut self,
        alloc: Global,
        session: Option<Box<HeldSession>>,
    ) -> Option<Box<HeldSession>> {
        let new = match session {
            Some(session) => SessionHandle::of_loose(Loose::of(session)),
            None => SessionHandle::empty(),
        };
        match replace(self, new).into_loose(alloc) {
            Some(loose) => Some(loose.into_box()),
            None => None,
        }
    }

    /// Changes the session, or opens one.
    ///
    /// # Errors
    ///
    /// `NotOpen` where no session is open, but for an edit that opens one; those of the session. The
    /// session is then as it was.
    pub fn edit(&mut self, alloc: Global, edit: Edit<'_>) -> Result<(), SessionError> {
        let mut held = match self.exchange(alloc, None) {
            Some(held) => held,
            None => first_held(alloc, edit)?,
        };
        let done = held.edit(alloc, edit);
        drop(self.exchange(alloc, Some(held)));
        done
    }

    /// A text that the session has to hand out. A caller that can't take an answer gives it back
    /// (`keep`): the next call for what changed gives it again.
    ///
    /// # Errors
    ///
    /// `NotOpen` where no session is open; those of the session, which is then as it was.
    pub fn text(&mut self, alloc: Global, asked: Asked) -> Result<String, SessionError> {
        match self.exchange(alloc, None) {
            Some(mut held) => {
                let text = held.text(alloc, asked);
                drop(self.exchange(alloc, Some(held)));
                text
            }
            None => Err(SessionError::NotOpen),
        }
    }

    /// Keeps an answer that wasn't handed out.
    pub fn keep(&mut self, alloc: Global, answer: String) {
        if let Some(mut held) = self.exchange(alloc, None) {
            held.keep(answer);
            drop(self.exchange(alloc, Some(held)));
        }
    }

    /// Closes the session, if one is open.
    pub fn close(&mut self, alloc: Global) {
        drop(self.exchange(alloc, None));
    }
}

/// What a handle holds that had nothing, where the edit opens a session.
fn first_held(alloc: Global, edit: Edit<'_>) -> Result<Box<HeldSession>, SessionError> {
    match edit {
        Edit::Open(_) => Ok(Box::new(alloc, HeldSession::new(alloc))?),
        _ => Err(SessionError::NotOpen),
    }
}

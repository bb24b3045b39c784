//! What callers in C hold: a session, and what it has to hand out.
use crate::asking::{Asked, Edit};
use crate::error::SessionError;
use cite_inputs::error::CallError;
use cite_session::session::Session;
use std::alloc::Global;

/// A session, with the text that waits, and what was wrong last.
#[derive(Drop)]
pub struct HeldSession {
    /// The session, once one was opened.
    session: Option<Session>,
    /// An answer that was written and didn't fit into the buffer of the caller.
    waiting: Option<String>,
    /// What was wrong with the last call that was refused, but for memory.
    error: String,
}

impl HeldSession {
    /// No session.
    pub(crate) fn new(alloc: Global) -> HeldSession {
        HeldSession {
            session: None,
            waiting: None,
            error: String::new(alloc),
        }
    }

    /// Changes the session.
    pub(crate) fn edit(&mut self, alloc: Global, edit: Edit<'_>) -> Result<(), SessionError> {
        let done = match edit {
            Edit::Open(texts) => match Session::open(alloc, texts) {
                Ok(session) => {
                    self.begin(session);
                    Ok(())
                }
                Err(error) => Err(SessionError::Call(error)),
            },
            edit => self.change(alloc, edit),
        };
        match done {
            Ok(()) => Ok(()),
            Err(error) => Err(self.noted(alloc, error)),
        }
    }

    /// Another session begins.
    fn begin(&mut self, session: Session) {
        self.session = Some(session);
        self.waiting = None;
    }

    /// Changes the session that is open.
    fn change(&mut self, alloc: Global, edit: Edit<'_>) -> Result<(), SessionError> {
        match &mut self.session {
            Some(session) => Ok(change(session, alloc, edit)?),
            None => Err(SessionError::NotOpen),
        }
    }

    /// A text that the session has to hand out. An answer that waits is the next one.
    pub(crate) fn text(&mut self, alloc: Global, asked: Asked) -> Result<String, SessionError> {
        let text = match asked {
            Asked::Error => return Ok(self.error.clone()?),
            Asked::Changes => match self.waiting.take() {
                Some(text) => Ok(text),
                None => self.written(alloc, asked),
            },
            Asked::Whole => self.whole(alloc),
            Asked::Warnings => self.written(alloc, asked),
        };
        match text {
            Ok(text) => Ok(text),
            Err(error) => Err(self.noted(alloc, error)),
        }
    }

    /// All that there is: no answer waits then.
    fn whole(&mut self, alloc: Global) -> Result<String, SessionError> {
        let text = self.written(alloc, Asked::Whole)?;
        self.waiting = None;
        Ok(text)
    }

    /// A text that the session writes.
    fn written(&mut self, alloc: Global, asked: Asked) -> Result<String, SessionError> {
        match &mut self.session {
            Some(session) => Ok(written(session, alloc, asked)?),
            None => Err(SessionError::NotOpen),
        }
    }

    /// Keeps an answer that wasn't handed out.
    pub(crate) fn keep(&mut self, answer: String) {
        self.waiting = Some(answer);
    }

    /// Keeps what an error says, and gives the error; or that memory is refused, where it can't be
    /// kept.
    fn noted(&mut self, alloc: Global, error: SessionError) -> SessionError {
        let text = match &error {
            SessionError::NotOpen | SessionError::Call(CallError::OutOfMemory) => return error,
            SessionError::Call(cause) => format!(in alloc; "{cause}"),
        };
        match text {
            Ok(text) => {
                self.error = text;
                error
            }
            Err(_) => SessionError::Call(CallError::OutOfMemory),
        }
    }
}

/// Changes a session that is open.
fn change(session: &mut Session, alloc: Global, edit: Edit<'_>) -> Result<(), CallError> {
    match edit {
        Edit::Open(_) => Ok(()),
        Edit::Style(texts) => session.set_style(alloc, texts),
        Edit::Put(items) => session.put_items(alloc, items),
        Edit::Remove(ids) => session.remove_items(alloc, ids),
        Edit::Cite(citations) => session.set_citations(alloc, citations),
    }
}

/// A text that a session writes.
fn written(session: &mut Session, alloc: Global, asked: Asked) -> Result<String, CallError> {
    match asked {
        Asked::Changes => session.answer(alloc),
        Asked::Whole => session.whole(alloc),
        _ => session.warnings(alloc),
    }
}

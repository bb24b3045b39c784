//! A session does what lines say.
use crate::member::Member;
use crate::opening::Opening;
use cite_inputs::error::CallError;
use cite_session::session::Session;
use serde_json::Value;
use std::alloc::{AllocError, AllocFailed, Global};
use std::fmt;

/// A session, once a line has opened one.
#[derive(Drop)]
pub struct LineSession {
    session: Option<Session>,
}

/// Why a line isn't done.
#[derive(Debug, Drop)]
enum LineError {
    /// It is no object with one member.
    NoMember,
    /// Its member has another name than those that there are.
    UnknownName(String),
    /// There is no session yet.
    NotOpen,
    /// What is to be opened is no object with a style.
    NoStyle,
    /// The session gives an error.
    Call(CallError),
}

impl LineSession {
    /// No session.
    pub fn new() -> LineSession {
        LineSession { session: None }
    }

    /// Does what a line says, and gives the line that answers it.
    ///
    /// A line is a JSON object with one member. `open` has an object with the text of a style file
    /// as `style`, and maybe a list of the texts of locale files as `locales` and an object of
    /// `options`; `style` has the same, and gives the session another style. `items` has CSL-JSON,
    /// `remove` a list of ids, and `citations` a list of citations. `answer`, `whole` and `warnings`
    /// ask for a text; what stands under them is ignored.
    ///
    /// The answer is an object, with what was asked for as `ok`, which else is true; or else with
    /// what is wrong as `error`. Then the session is as it was.
    ///
    /// # Errors
    ///
    /// Where memory for the answer is refused.
    pub fn answer_line(&mut self, alloc: Global, line: &str) -> Result<String, AllocError> {
        match self.done(alloc, line) {
            Ok(Some(text)) => format!(in alloc; "{{\"ok\":{text}}}"),
            Ok(None) => String::from_str(alloc, "{\"ok\":true}"),
            Err(error) => refusal(alloc, &error),
        }
    }

    /// Does what a line says.
    fn done(&mut self, alloc: Global, line: &str) -> Result<Option<String>, LineError> {
        let Some(member) = Member::of_line(line) else {
            return Err(LineError::NoMember);
        };
        if member.name == "open" {
            let opening = Opening::read(alloc, member.value)?.ok_or(LineError::NoStyle)?;
            self.session = Some(Session::open(alloc, opening.texts())?);
            return Ok(None);
        }
        match &mut self.session {
            Some(session) => done_by(session, alloc, member),
            None => Err(LineError::NotOpen),
        }
    }
}

/// What a session does that is open.
fn done_by(
    session: &mut Session,
    alloc: Global,
    member: Member<'_>,
) -> Result<Option<String>, LineError> {
    match member.name {
        "answer" => Ok(Some(session.answer(alloc)?)),
        "whole" => Ok(Some(session.whole(alloc)?)),
        "warnings" => Ok(Some(session.warnings(alloc)?)),
        _ => {
            edit(session, alloc, member)?;
            Ok(None)
        }
    }
}

/// Changes a session.
fn edit(session: &mut Session, alloc: Global, member: Member<'_>) -> Result<(), LineError> {
    let value = member.value.as_bytes();
    match member.name {
        "style" => {
            let opening = Opening::read(alloc, member.value)?.ok_or(LineError::NoStyle)?;
            Ok(session.set_style(alloc, opening.texts())?)
        }
        "items" => Ok(session.put_items(alloc, value)?),
        "remove" => Ok(session.remove_items(alloc, value)?),
        "citations" => Ok(session.set_citations(alloc, value)?),
        name => Err(LineError::UnknownName(String::from_str(alloc, name)?)),
    }
}

/// The line that says why a line isn't done.
fn refusal(alloc: Global, error: &LineError) -> Result<String, AllocError> {
    let message = Value::String(format!(in alloc; "{error}")?).to_string(alloc)?;
    format!(in alloc; "{{\"error\":{message}}}")
}

impl From<CallError> for LineError {
    fn from(error: CallError) -> LineError {
        LineError::Call(error)
    }
}

impl From<AllocError> for LineError {
    fn from(_error: AllocError) -> LineError {
        LineError::Call(CallError::OutOfMemory)
    }
}

impl<T: Drop> From<AllocFailed<T>> for LineError {
    fn from(_error: AllocFailed<T>) -> LineError {
        LineError::Call(CallError::OutOfMemory)
    }
}

impl fmt::Display for LineError {
    fn fmt<W: fmt::Write>(&self, f: &mut fmt::Formatter<W>) -> fmt::Result {
        match self {
            LineError::NoMember => f.write_str("wanted a JSON object with one member"),
            LineError::UnknownName(name) => {
                f.write_str("unknown member `")?;
                f.write_str(name.as_str())?;
                f.write_str("`; there are `open`, `style`, `items`, `remove`, `citations`, ")?;
                f.write_str("`answer`, `whole` and `warnings`")
            }
            LineError::NotOpen => f.write_str("no session is open"),
            LineError::NoStyle => {
                f.write_str(
                    "wanted an object with a text as `style`, and maybe `locales` and `options`",
                )
            }
            LineError::Call(error) => write!(f, "{error}"),
        }
    }
}

//! Why a call has no answer.
ghost use Rattle.std.specs.Prelude.{◌≡◌};
ghost use Rattle.cite_inputs.specs.Status.{status};

use crate::remark::{Fault, Remark};
use crate::texts::TextName;
use cite_limits::error::Excess;
use cite_limits::places::place_in;
use cite_tasks::error::AnswerError;
use fault_places::place::FaultPlace;
use std::alloc::{AllocError, AllocFailed, Global};
use std::fmt;
use style_file::style::CslStyle;

/// Why a call has no answer.
#[derive(Debug, Drop)]
pub enum CallError {
    /// A text is wrong.
    Fault(Fault),
    /// The style takes more steps, or writes more, than it may.
    LimitExceeded(Remark),
    /// There are too many items to number them.
    TooManyItems,
    OutOfMemory,
}

impl CallError {
    /// Its status: 2, 4, 5 or 10.
    pub fn status(&self) -> u8
        ensures { result ≡ status self.now }
    {
        match self {
            CallError::Fault(_) => 2,
            CallError::LimitExceeded(_) => 10,
            CallError::TooManyItems => 4,
            CallError::OutOfMemory => 5,
        }
    }
}

/// The error of a text that is wrong at a place.
pub(crate) fn refusal<W: fmt::Display>(
    alloc: Global,
    text: TextName,
    place: FaultPlace,
    why: &W,
) -> CallError {
    match format!(in alloc; "{why}") {
        Ok(message) => CallError::Fault(Fault {
            remark: Remark {
                text,
                place,
                message,
            },
            parent: None,
        }),
        Err(_) => CallError::OutOfMemory,
    }
}

/// Why a document in a style has no answer; this is the text of the style.
pub fn answer_refusal(
    alloc: Global,
    text: &[u8],
    style: &CslStyle,
    error: AnswerError,
) -> CallError {
    match error {
        AnswerError::NoReference { citation, id } => {
            match format!(in alloc; "/{citation}") {
                Ok(pointer) => no_item(alloc, pointer, id.as_str()),
                Err(_) => CallError::OutOfMemory,
            }
        }
        AnswerError::StyleTooLong => refusal(alloc, TextName::Style, FaultPlace::Whole, &error),
        AnswerError::LimitExceeded(excess) => match limit_remark(alloc, text, style, &excess) {
            Ok(remark) => CallError::LimitExceeded(remark),
            Err(_) => CallError::OutOfMemory,
        },
        AnswerError::TooManyItems => CallError::TooManyItems,
        AnswerError::OutOfMemory => CallError::OutOfMemory,
    }
}

/// What a style exceeds, with the place in its text.
fn limit_remark(
    alloc: Global,
    text: &[u8],
    style: &CslStyle,
    excess: &Excess,
) -> Result<Remark, AllocError> {
    let text = str::from_utf8(text).unwrap_or("");
    Ok(Remark {
        text: TextName::Style,
        place: FaultPlace::at_line(place_in(alloc, text, style, excess.place)?),
        message: format!(in alloc; "{excess}")?,
    })
}

/// The error of the part of the citations to which a pointer leads, where it cites an item that
/// isn't there.
pub(crate) fn no_item(alloc: Global, pointer: String, id: &str) -> CallError {
    match format!(in alloc; "there is no item `{id}`") {
        Ok(why) => refusal(
            alloc,
            TextName::Citations,
            FaultPlace::Pointer(pointer),
            &why,
        ),
        Err(_) => CallError::OutOfMemory,
    }
}

impl From<AllocError> for CallError {
    fn from(_error: AllocError) -> CallError {
        CallError::OutOfMemory
    }
}

impl<T: Drop> From<AllocFailed<T>> for CallError {
    fn from(_error: AllocFailed<T>) -> CallError {
        CallError::OutOfMemory
    }
}

impl fmt::Display for CallError {
    fn fmt<W: fmt::Write>(&self, f: &mut fmt::Formatter<W>) -> fmt::Result {
        match self {
            CallError::Fault(fault) => {
                let remark = &fault.remark;
                write!(f, "{remark}")
            }
            CallError::LimitExceeded(remark) => write!(f, "{remark}"),
            CallError::TooManyItems => f.write_str("there are too many items"),
            CallError::OutOfMemory => f.write_str("out of memory"),
        }
    }
}

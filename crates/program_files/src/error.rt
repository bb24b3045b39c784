//! Why a command has no answer.
use crate::document_error::DocumentError;
use cite_tasks::error::AnswerError;
use program_command::error::{CommandLineError, UsageError};
use program_command::one_line::OneLine;
use program_faults::finding::{Finding, PrintedFinding};
use program_styles::styles::NAMES;
use std::alloc::{AllocError, AllocFailed};
use std::{fmt, io};

/// Why a command has no answer.
#[derive(Debug, Drop)]
pub enum CommandError {
    /// The command line is wrong.
    Usage(UsageError),
    /// No style that is built in has this name.
    UnknownStyle(String),
    /// A file can't be read.
    Unreadable { path: String, why: String },
    /// A file is wrong, as these faults say.
    Refused { path: String, faults: Vec<Finding> },
    /// The style in a file takes more steps, or writes more, than it may, as this fault says.
    LimitExceeded { path: String, fault: Finding },
    Answer(AnswerError),
    /// The document in a file has no answer, though it is of its form.
    Document { path: String, why: DocumentError },
    /// What is written can't be handed over.
    Output,
    /// Nobody reads any more what is written, as behind `| head`.
    ClosedPipe,
    OutOfMemory,
}

impl CommandError {
    /// Its exit status.
    pub fn status(&self) -> u8 {
        match self {
            CommandError::Unreadable { .. } | CommandError::Output | CommandError::ClosedPipe => 1,
            CommandError::Refused { .. } => 2,
            CommandError::LimitExceeded { .. } => LIMIT_EXCEEDED,
            CommandError::Answer(error) => answer_status(error),
            CommandError::Document { why, .. } => why.status(),
            CommandError::OutOfMemory => 5,
            CommandError::Usage(_) | CommandError::UnknownStyle(_) => 64,
        }
    }

    /// Whether nothing more can be done, whatever the next file is.
    pub fn ends_all(&self) -> bool {
        matches!(
            self,
            CommandError::Output | CommandError::ClosedPipe | CommandError::OutOfMemory
        )
    }
}

/// The exit status of a style that takes more than it may.
pub const LIMIT_EXCEEDED: u8 = 10;

fn answer_status(error: &AnswerError) -> u8 {
    match error {
        AnswerError::NoReference { .. } | AnswerError::StyleTooLong => 2,
        AnswerError::LimitExceeded(_) => LIMIT_EXCEEDED,
        AnswerError::TooManyItems => 4,
        AnswerError::OutOfMemory => 5,
    }
}

impl From<CommandLineError> for CommandError {
    fn from(error: CommandLineError) -> CommandError {
        match error {
            CommandLineError::Usage(error) => CommandError::Usage(error),
            CommandLineError::OutOfMemory => CommandError::OutOfMemory,
        }
    }
}

impl From<AllocError> for CommandError {
    fn from(_error: AllocError) -> CommandError {
        CommandError::OutOfMemory
    }
}

impl<T: Drop> From<AllocFailed<T>> for CommandError {
    fn from(_error: AllocFailed<T>) -> CommandError {
        CommandError::OutOfMemory
    }
}

impl From<io::Error> for CommandError {
    fn from(error: io::Error) -> CommandError {
        match error.kind() {
            io::ErrorKind::BrokenPipe => CommandError::ClosedPipe,
            _ => CommandError::Output,
        }
    }
}

impl fmt::Display for CommandError {
    fn fmt<W: fmt::Write>(&self, f: &mut fmt::Formatter<W>) -> fmt::Result {
        match self {
            CommandError::Usage(error) => { write!(f, "gamhilon: {error}; see gamhilon --help") }
            CommandError::UnknownStyle(name) => {
                let name = OneLine(name.as_str());
                write!(f, "gamhilon: there is no style `{name}`: the styles are ")?;
                write_names(f)
            }
            CommandError::Unreadable { path, why } => {
                let path = OneLine(path.as_str());
                let why = OneLine(why.as_str());
                write!(f, "{path}: {why}")
            }
            CommandError::Refused { path, faults } => write_faults(f, path.as_str(), faults),
            CommandError::LimitExceeded { path, fault } => {
                let fault = PrintedFinding {
                    path: path.as_str(),
                    finding: fault,
                };
                write!(f, "{fault}")
            }
            CommandError::Answer(error) => write!(f, "gamhilon: {error}"),
            CommandError::Document { path, why } => {
                let path = OneLine(path.as_str());
                write!(f, "{path}: error: {why}")
            }
            CommandError::Output => f.write_str("gamhilon: the answer can't be written"),
            CommandError::ClosedPipe => f.write_str("gamhilon: nobody reads the answer"),
            CommandError::OutOfMemory => f.write_str("gamhilon: out of memory"),
        }
    }
}

/// Writes the faults of a file, one below the other.
fn write_faults<W: fmt::Write>(
    f: &mut fmt::Formatter<W>,
    path: &str,
    faults: &[Finding],
) -> fmt::Result {
    let mut before = "";
    for finding in faults {
        let fault = PrintedFinding { path, finding };
        write!(f, "{before}{fault}")?;
        before = "\n";
    }
    Ok(())
}

/// Writes the names of the styles that are built in.
fn write_names<W: fmt::Write>(f: &mut fmt::Formatter<W>) -> fmt::Result {
    let mut before = "";
    for name in NAMES {
        write!(f, "{before}{name}")?;
        before = ", ";
    }
    Ok(())
}

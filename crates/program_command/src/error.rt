//! Why the words of a command line make no command.
use crate::one_line::OneLine;
use std::alloc::{AllocError, AllocFailed};
use std::fmt;

/// Why there is no command.
#[derive(Debug, Drop)]
pub enum CommandLineError {
    /// The command line is wrong.
    Usage(UsageError),
    /// There was no memory left.
    OutOfMemory,
}

/// What is wrong with a command line.
#[derive(Debug, Drop)]
pub enum UsageError {
    /// There is no command.
    NoCommand,
    /// A word is no UTF-8.
    NoUtf8,
    /// The words are wrong, as this text says.
    Words(String),
    /// A whole page of what is no HTML.
    NoPage,
    /// Several files are the standard input.
    TwoInputs,
}

impl From<AllocError> for CommandLineError {
    fn from(_error: AllocError) -> CommandLineError {
        CommandLineError::OutOfMemory
    }
}

impl<T: Drop> From<AllocFailed<T>> for CommandLineError {
    fn from(_error: AllocFailed<T>) -> CommandLineError {
        CommandLineError::OutOfMemory
    }
}

impl fmt::Display for UsageError {
    fn fmt<W: fmt::Write>(&self, f: &mut fmt::Formatter<W>) -> fmt::Result {
        match self {
            UsageError::NoCommand => f.write_str("no command"),
            UsageError::NoUtf8 => f.write_str("a word is no UTF-8"),
            UsageError::Words(why) => {
                let why = OneLine(why.as_str());
                write!(f, "{why}")
            }
            UsageError::NoPage => f.write_str("`--standalone` makes a page of HTML alone"),
            UsageError::TwoInputs => f.write_str("`-` stands for several files"),
        }
    }
}

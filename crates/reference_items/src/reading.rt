//! What a reader gives.
use crate::item::Item;
use std::fmt;

/// What was read of a file.
#[derive(Drop)]
pub struct ReadItems {
    /// The items, each of another id.
    pub items: Vec<Item>,
    /// What the items don't have of their entries.
    pub losses: Vec<Loss>,
    /// What in the file is no entry that can be read, in the order of the file.
    pub faults: Vec<Fault>,
}

/// What an item doesn't have of its entry.
#[derive(Drop)]
pub struct Loss {
    /// The key of the entry.
    pub entry: String,
    pub field: String,
    pub reason: String,
}

/// Something that can't be read.
#[derive(Drop)]
pub struct Fault {
    /// The line, from 1.
    pub line: usize,
    /// The column in characters, from 1.
    pub column: usize,
    pub reason: String,
}

impl fmt::Display for Loss {
    fn fmt<W: fmt::Write>(&self, f: &mut fmt::Formatter<W>) -> fmt::Result {
        let entry = self.entry.as_str();
        let field = self.field.as_str();
        let reason = self.reason.as_str();
        write!(f, "{entry}: {field}: {reason}")
    }
}

impl fmt::Display for Fault {
    fn fmt<W: fmt::Write>(&self, f: &mut fmt::Formatter<W>) -> fmt::Result {
        let line = self.line;
        let column = self.column;
        let reason = self.reason.as_str();
        write!(f, "line {line}, column {column}: {reason}")
    }
}

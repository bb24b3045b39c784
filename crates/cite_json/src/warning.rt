//! What is read of citations otherwise than it stands in the JSON.
use reference_json::fault::Pointer;
use std::fmt;

/// What the value of a key is.
#[derive(Clone, Copy, Debug, PartialEq, Eq)]
pub enum ValueKind {
    /// A text, or a number that stands for one.
    Text,
    /// A truth value.
    Flag,
    /// The number of a note.
    NoteNumber,
    List,
    Object,
}

/// What was done with a member of a cite or of a citation.
#[derive(Clone, Copy, Debug, PartialEq, Eq)]
pub enum WarningKind {
    /// The key stands more than once in its object, so all but the last of its values were left
    /// out.
    RepeatedKey,
    /// Nothing of this form has the key, so it was left out.
    UnknownKey,
    /// The value is none of this kind, so it was left out.
    OtherValue(ValueKind),
    /// CSL has no locator type of this name, so the locator is a page.
    UnknownLocator,
    /// The citation stands in another note by its own properties, so the cite's was left out.
    OtherNote,
}

/// A member of a cite or a citation that is read otherwise than it stands in the JSON.
#[derive(Debug, Drop)]
pub struct CiteWarning {
    /// The way to the member.
    pub pointer: Pointer,
    pub kind: WarningKind,
}

impl fmt::Display for WarningKind {
    fn fmt<W: fmt::Write>(&self, f: &mut fmt::Formatter<W>) -> fmt::Result {
        f.write_str(match self {
            WarningKind::RepeatedKey => "repeated key, the value before was replaced",
            WarningKind::UnknownKey => "unknown key, left out",
            WarningKind::OtherValue(ValueKind::Text) => "no text, left out",
            WarningKind::OtherValue(ValueKind::Flag) => "neither true nor false, left out",
            WarningKind::OtherValue(ValueKind::NoteNumber) => "no number of a note, left out",
            WarningKind::OtherValue(ValueKind::List) => "no list, left out",
            WarningKind::OtherValue(ValueKind::Object) => "no object, left out",
            WarningKind::OtherNote => "another note than the citation's `noteIndex`, left out",
            WarningKind::UnknownLocator => "unknown kind of locator, taken for a page",
        })
    }
}

impl fmt::Display for CiteWarning {
    fn fmt<W: fmt::Write>(&self, f: &mut fmt::Formatter<W>) -> fmt::Result {
        let pointer = &self.pointer;
        let kind = &self.kind;
        write!(f, "{pointer}: {kind}")
    }
}

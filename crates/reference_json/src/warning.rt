//! What is read of CSL-JSON otherwise than it stands there.
use crate::fault::{Found, Pointer, Wanted};
use std::fmt;

/// What was done with a part of the JSON.
#[derive(Debug, Drop)]
pub enum WarningKind {
    /// The key stands more than once in its object, so all but the last of its values were left
    /// out.
    RepeatedKey,
    /// No item, name or date has this key, so it was left out.
    UnknownKey { nearest: Option<&'static str> },
    /// The item has no type, so it is a document.
    NoType,
    /// CSL has no item type of this name, so the item is a document.
    UnknownType { nearest: Option<&'static str> },
    /// An item before this one has the same id, so this one stands in its place.
    RepeatedId,
    /// The variable stands under an older name too, so that was left out.
    OlderName,
    /// The item has a value of the variable that its note names, so that was left out.
    NotedTwice,
    /// The texts of a list were joined with commas.
    JoinedTexts,
    /// The text has a character as HTML has it, which is written as it stands.
    EscapedCharacter,
    /// Before the DOI stands what resolves it, which is written, too.
    ResolverInDoi,
    /// The name has no parts, so it was left out.
    EmptyName,
    /// The name has a literal, so its other parts were left out.
    PartsBesideLiteral,
    /// The date is empty, so it was left out.
    EmptyDate,
    /// The date is not kept as a whole: what no date of CSL has was left out.
    CutDate,
    /// The item has a fault, so it was left out.
    LeftOut { found: Found, wanted: Wanted },
}

/// Something that is read otherwise than it stands in the JSON.
#[derive(Debug, Drop)]
pub struct Warning {
    /// The way to the part of the JSON.
    pub pointer: Pointer,
    pub kind: WarningKind,
}

/// Writes a guess at what was meant.
fn write_guess<W: fmt::Write>(
    f: &mut fmt::Formatter<W>,
    nearest: Option<&'static str>,
) -> fmt::Result {
    match nearest {
        Some(name) => write!(f, "; is it `{name}`?"),
        None => Ok(()),
    }
}

impl fmt::Display for WarningKind {
    fn fmt<W: fmt::Write>(&self, f: &mut fmt::Formatter<W>) -> fmt::Result {
        match self {
            WarningKind::RepeatedKey => f.write_str("repeated key, the value before was replaced"),
            WarningKind::UnknownKey { nearest } => {
                f.write_str("unknown key, left out")?;
                write_guess(f, *nearest)
            }
            WarningKind::NoType => f.write_str("no type, taken for a document"),
            WarningKind::UnknownType { nearest } => {
                f.write_str("unknown type, taken for a document")?;
                write_guess(f, *nearest)
            }
            WarningKind::RepeatedId => f.write_str("repeated id, the item before was replaced"),
            WarningKind::OlderName => f.write_str("an older name of the variable was left out"),
            WarningKind::NotedTwice => f.write_str(
                "the item has this variable, left out of its note",
            ),
            WarningKind::JoinedTexts => f.write_str("a list of texts, joined with commas"),
            WarningKind::EscapedCharacter => {
                f.write_str("`&amp;` and the like are text: JSON has `&` itself")
            }
            WarningKind::ResolverInDoi => {
                f.write_str("a DOI begins with `10.`: what stands before it is written, too")
            }
            WarningKind::EmptyName => f.write_str("a name without parts, left out"),
            WarningKind::PartsBesideLiteral => {
                f.write_str("a name with a literal, its other parts were left out")
            }
            WarningKind::EmptyDate => f.write_str("an empty date, left out"),
            WarningKind::CutDate => f.write_str("not all of the date could be kept"),
            WarningKind::LeftOut { found, wanted } => {
                write!(f, "found {found}, wanted {wanted}; the item was left out")
            }
        }
    }
}

impl fmt::Display for Warning {
    fn fmt<W: fmt::Write>(&self, f: &mut fmt::Formatter<W>) -> fmt::Result {
        let pointer = &self.pointer;
        let kind = &self.kind;
        write!(f, "{pointer}: {kind}")
    }
}

//! What is odd in a file that is read, and where.
use crate::fault::write_nearest;
use crate::stop::clipped;
use std::alloc::{AllocError, Global};
use std::fmt;
use style_xml::error::Place;

/// What is odd at a place of a file that is read.
#[derive(Debug, Drop)]
pub struct Warning {
    pub place: Place,
    /// What stands there, as a fault quotes it.
    pub found: String,
    pub oddity: Oddity,
}

/// What is odd.
#[derive(Clone, Copy, Debug, PartialEq, Eq)]
pub enum Oddity {
    /// An attribute that CSL 1.0.2 doesn't give to this element. It is ignored.
    Attribute {
        element: &'static str,
        nearest: Option<&'static str>,
    },
    /// A word that names nothing of this kind in CSL 1.0.2.
    Word {
        kind: WordKind,
        nearest: Option<&'static str>,
    },
    /// An element that CSL 1.0.2 lacks and that is ignored: of CSL-M, of another namespace, or in
    /// `info`.
    Element,
    /// Text where CSL has none. It is ignored.
    Text,
    /// Another version than 1.0.
    Version,
    /// No version.
    NoVersion,
    /// A root without a namespace.
    NoNamespace,
    /// A link to a parent, in a style that stands for itself. It has no effect.
    UnusedParent,
}

/// What a word names.
#[derive(Clone, Copy, Debug, PartialEq, Eq)]
pub enum WordKind {
    /// A variable. It is always empty.
    Variable,
    /// An item type. No item is of it.
    ItemType,
    /// A locator type. No locator is of it.
    LocatorType,
    /// A term. It writes nothing.
    Term,
    /// A field of science. The category is left out.
    Field,
    /// The relation of a link. The link is left out.
    LinkRelation,
}

impl WordKind {
    fn name(self) -> &'static str {
        match self {
            WordKind::Variable => "variable",
            WordKind::ItemType => "item type",
            WordKind::LocatorType => "locator type",
            WordKind::Term => "term",
            WordKind::Field => "field",
            WordKind::LinkRelation => "relation",
        }
    }
}

impl fmt::Display for Warning {
    fn fmt<W: fmt::Write>(&self, f: &mut fmt::Formatter<W>) -> fmt::Result {
        let found = self.found.as_str();
        match &self.oddity {
            Oddity::Attribute { element, nearest } => {
                write!(f, "unknown attribute `{found}` of `{element}`")?;
                write_nearest(f, nearest)
            }
            Oddity::Word { kind, nearest } => {
                write!(f, "unknown {} `{found}`", kind.name())?;
                write_nearest(f, nearest)
            }
            Oddity::Element => write!(f, "element `{found}` is ignored"),
            Oddity::Text => write!(f, "text `{found}` is ignored"),
            Oddity::Version => write!(f, "version `{found}` is read as 1.0"),
            Oddity::NoVersion => write!(f, "`{found}` without a version is read as 1.0"),
            Oddity::NoNamespace => write!(f, "`{found}` without a namespace is read as CSL's"),
            Oddity::UnusedParent => write!(f, "the parent `{found}` is not used"),
        }
    }
}

/// What is odd, before the place is known.
#[derive(Drop)]
pub struct Note {
    offset: usize,
    found: String,
    oddity: Oddity,
}

impl Note {
    /// At this offset this was found, which is odd.
    ///
    /// # Errors
    ///
    /// Where memory is refused.
    pub fn at(
        alloc: Global,
        offset: usize,
        found: &str,
        oddity: Oddity,
    ) -> Result<Note, AllocError> {
        Ok(Note {
            offset,
            found: clipped(alloc, found)?,
            oddity,
        })
    }
}

/// The warnings for some notes on a text, in the order of their places.
///
/// # Errors
///
/// Where memory is refused.
pub fn warnings_of(
    alloc: Global,
    text: &str,
    mut notes: Vec<Note>,
) -> Result<Vec<Warning>, AllocError> {
    notes.sort_by_key(|note| note.offset)?;
    let mut cursor = Cursor::new(text);
    let mut warnings = Vec::new(alloc);
    for note in notes {
        warnings.push(Warning {
            place: cursor.place_of(note.offset),
            found: note.found,
            oddity: note.oddity,
        })?;
    }
    Ok(warnings)
}

/// The places of offsets that rise, each found from the one before.
#[derive(Drop)]
struct Cursor<'t> {
    /// What is behind the place.
    rest: &'t [u8],
    offset: usize,
    place: Place,
}

impl<'t> Cursor<'t> {
    fn new(text: &'t str) -> Cursor<'t> {
        Cursor {
            rest: text.as_bytes(),
            offset: 0,
            place: Place { line: 1, column: 1 },
        }
    }

    /// The place of an offset that is not before the last one.
    fn place_of(&mut self, offset: usize) -> Place {
        let step = offset.saturating_sub(self.offset).min(self.rest.len());
        let (passed, rest) = self.rest.split_at(step);
        for byte in passed {
            if *byte == b'\n' {
                self.place.line = self.place.line.saturating_add(1);
                self.place.column = 1;
            } else if *byte < 0x80 || 0xc0 <= *byte {
                self.place.column = self.place.column.saturating_add(1);
            }
        }
        self.rest = rest;
        self.offset = self.offset.saturating_add(step);
        self.place
    }
}

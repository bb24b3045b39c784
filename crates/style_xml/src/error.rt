//! Why a text is no document that is read, and where.
ghost use Rattle.std.specs.Prelude.{◌≡◌, ◌+◌, ◌≤◌, take};
ghost use Rattle.style_xml.specs.Newlines.{newline_count};

use crate::limits::{MAX_ATTRIBUTES, MAX_DEPTH, MAX_PREFIXES};
use std::error::Error;
use std::fmt;

/// The byte order mark, U+FEFF, in UTF-8.
const BYTE_ORDER_MARK: &[u8] = b"\xef\xbb\xbf";

/// Why there is no tree.
#[derive(Debug, PartialEq, Eq, Drop)]
pub enum XmlError {
    /// The text is no document that is read: what is wrong, and the first place where that shows.
    Malformed(Fault, Place),
    /// Memory was refused.
    OutOfMemory,
}

/// What is wrong at a place of a text.
#[derive(Debug, PartialEq, Eq, Drop)]
pub struct Fault {
    /// What must stand there.
    pub wanted: Wanted,
    /// What stands there: the text up to the end of its line, at most `MAX_FOUND` characters. A
    /// control character is written as `\u{1}`, the end of a line as `\n`, and a byte that is no
    /// UTF-8 as `\xff`. At the end of the text it is empty.
    pub found: String,
}

/// A place in a text: its line and its column in characters, both from 1.
#[derive(Clone, Copy, Debug, PartialEq, Eq)]
pub struct Place {
    pub line: usize,
    pub column: usize,
}

/// What must stand at a place.
#[derive(Debug, PartialEq, Eq, Drop)]
pub enum Wanted {
    /// Bytes that are UTF-8.
    Utf8,
    /// A character that a document may contain.
    AllowedCharacter,
    /// `version="1.0"`, at the beginning of an XML declaration.
    Version,
    /// `encoding="UTF-8"`, if any, in an XML declaration.
    Utf8Encoding,
    /// `standalone="yes"` or `"no"`, if any, and the end of the XML declaration.
    DeclarationEnd,
    /// The element of the document.
    Root,
    /// Nothing more, behind the element of the document.
    End,
    /// An element, text or a CDATA section, and no DOCTYPE or other declaration.
    NoDeclaration,
    /// A comment with an end.
    ClosedComment,
    /// The `>` behind the `--` of a comment.
    CommentEnd,
    /// A processing instruction with an end.
    ClosedInstruction,
    /// The name of a processing instruction, without a colon, other than `xml`.
    Target,
    /// A CDATA section with an end.
    ClosedSection,
    /// Text without `]]>`.
    NoSectionEnd,
    /// A name.
    Name,
    /// White space, `>` or `/>`.
    TagEnd,
    /// The `=` behind an attribute's name.
    Equals,
    /// An attribute's value in quotes.
    Value,
    /// An attribute's value with an end.
    ClosedValue,
    /// An attribute's value without `<`.
    NoTag,
    /// A predefined entity, or the number of a character that a document may contain.
    Reference,
    /// An attribute that its element hasn't already.
    OtherAttribute,
    /// At most `MAX_ATTRIBUTES` attributes.
    FewerAttributes,
    /// A prefix that is declared.
    DeclaredPrefix,
    /// A declaration that leaves the prefixes `xml` and `xmlns` and their namespaces alone, and
    /// gives each other prefix a namespace.
    PrefixDeclaration,
    /// At most `MAX_PREFIXES` declared prefixes.
    FewerPrefixes,
    /// The end tag of the element of this name. The name is cut off after `MAX_FOUND` characters.
    EndTag(String),
    /// At most `MAX_DEPTH` elements in one another.
    LessDepth,
}

/// The place of an offset in bytes. Behind the end of the text it is the place of the end. A byte
/// order mark has no column.
pub fn place_at(text: &str, offset: usize) -> Place
    ensures line { result.line ≡ newline_count (take offset text.now) + 1 }
    ensures column { result.column ≤ offset + 1 }
{
    place_in(text.as_bytes(), offset)
}

/// The same in the bytes of a text.
pub(crate) fn place_in(bytes: &[u8], offset: usize) -> Place
    ensures line { result.line ≡ newline_count (take offset bytes.now) + 1 }
    ensures column { result.column ≤ offset + 1 }
{
    let mut place = Place {
        line: 1,
        column: usize::from(!bytes.starts_with(BYTE_ORDER_MARK)),
    };
    for byte in &bytes[..offset.min(bytes.len())] {
        if *byte == b'\n' {
            place.line += 1;
            place.column = 1;
        } else if *byte < 0x80 || 0xc0 <= *byte {
            place.column += 1;
        }
    }
    place.column = place.column.max(1);
    place
}

impl fmt::Display for Wanted {
    fn fmt<W: fmt::Write>(&self, f: &mut fmt::Formatter<W>) -> fmt::Result {
        let words = match self {
            Wanted::Utf8 => "UTF-8",
            Wanted::AllowedCharacter => "a character that XML allows",
            Wanted::Version => "`version=\"1.0\"`",
            Wanted::Utf8Encoding => "the encoding UTF-8",
            Wanted::DeclarationEnd => "`?>` at the end of the XML declaration",
            Wanted::Root => "the element of the document",
            Wanted::End => "nothing behind the element of the document",
            Wanted::NoDeclaration => "no DOCTYPE or other declaration",
            Wanted::ClosedComment => "a comment that ends with `-->`",
            Wanted::CommentEnd => "`>` behind the `--` in a comment",
            Wanted::ClosedInstruction => "a processing instruction that ends with `?>`",
            Wanted::Target => "the name of a processing instruction, other than `xml`",
            Wanted::ClosedSection => "a CDATA section that ends with `]]>`",
            Wanted::NoSectionEnd => "text without `]]>`",
            Wanted::Name => "a name",
            Wanted::TagEnd => "white space, `>` or `/>`",
            Wanted::Equals => "`=`",
            Wanted::Value => "a value in quotes",
            Wanted::ClosedValue => "a value that ends with its quote",
            Wanted::NoTag => "a value without `<`",
            Wanted::Reference => "an entity that XML predefines, or a character's number",
            Wanted::OtherAttribute => "an attribute that the tag hasn't already",
            Wanted::FewerAttributes => return write!(f, "at most {MAX_ATTRIBUTES} attributes"),
            Wanted::DeclaredPrefix => "a prefix that is declared",
            Wanted::PrefixDeclaration => "a declaration that namespaces allow",
            Wanted::FewerPrefixes => return write!(f, "at most {MAX_PREFIXES} declared prefixes"),
            Wanted::EndTag(name) => return write!(f, "the end tag of `{name}`"),
            Wanted::LessDepth => return write!(f, "at most {MAX_DEPTH} elements in one another"),
        };
        f.write_str(words)
    }
}

impl fmt::Display for Fault {
    fn fmt<W: fmt::Write>(&self, f: &mut fmt::Formatter<W>) -> fmt::Result {
        if self.found.is_empty() {
            return write!(f, "found the end of the text, wanted {}", self.wanted);
        }
        write!(f, "found `{}`, wanted {}", self.found, self.wanted)
    }
}

impl fmt::Display for XmlError {
    fn fmt<W: fmt::Write>(&self, f: &mut fmt::Formatter<W>) -> fmt::Result {
        match self {
            XmlError::Malformed(fault, place) => {
                write!(f, "line {}, column {}: {fault}", place.line, place.column)
            }
            XmlError::OutOfMemory => write!(f, "out of memory"),
        }
    }
}

impl Error for XmlError {}

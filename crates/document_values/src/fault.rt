//! Where a document is wrong.

/// A step from a value to a part of it.
#[derive(Debug, Drop)]
pub enum Step {
    /// To the member of this key.
    Key(String),
    /// To the item at this place, from 0.
    Item(usize),
}

/// What was found where something else is asked for.
#[derive(Debug, Drop)]
pub enum Found {
    Null,
    Boolean,
    Number,
    Text,
    List,
    Object,
    /// An object that has this key, which nothing asks for.
    UnknownKey(String),
    /// An object that hasn't this key.
    MissingKey(String),
    /// A text that is no JSON from here on.
    NoJson { line: usize, column: usize },
    /// Bytes that are no UTF-8 from here on.
    NoUtf8 { byte: usize },
}

/// What is asked for.
#[derive(Debug, Drop)]
pub enum Wanted {
    Utf8,
    Json,
    Text,
    Truth,
    List,
    Object,
    /// A whole number of 64 bits, without a sign.
    Whole,
    /// A whole number of 16 bits.
    Spacing,
    /// A whole number of 16 bits that isn't 0.
    LineSpacing,
    /// A whole number of 32 bits.
    Year,
    /// The name of a variable of any kind.
    Variable,
    /// The name of a term.
    Term,
    /// The kind of an element.
    Kind,
    /// The name of a condition, or an object that names a variable.
    Condition,
    /// Exactly one of the keys that say what a text writes.
    Target,
    /// A family name, or a family name and a given name.
    Person,
    /// What a locator counts, and its text.
    Locator,
    /// The name of a style of the document.
    Style,
    /// The key of an entry of the document.
    Entry,
    /// The key that is missing.
    MissingKey,
    /// This key only where works are disambiguated as CSL 1.0.2 has it.
    KeyOfCsl,
    /// One of these keys.
    KeyOf(String),
    /// One of these names.
    NameOf(String),
}

/// Where a document is wrong: the way to a part of it, what was found there, and what is asked for.
#[derive(Debug, Drop)]
pub struct Fault {
    /// The way, whose last step is the outermost.
    pub path: Vec<Step>,
    pub found: Found,
    pub wanted: Wanted,
}

//! The variables, locators and terms that a style can name (CSL 1.0.2, appendices II to IV).

/// A variable of an entry, or of the cite at hand, of any kind.
#[derive(Clone, Copy, PartialEq, Eq)]
pub enum Variable {
    Name(NameVariable),
    Date(DateVariable),
    Standard(StandardVariable),
    Number(NumberVariable),
}

/// A variable that holds persons.
#[derive(Clone, Copy, PartialEq, Eq, PartialOrd, Ord, Hash)]
pub enum NameVariable {
    Author,
    Editor,
    Translator,
}

/// A variable that holds a date.
#[derive(Clone, Copy, PartialEq, Eq, PartialOrd, Ord, Hash)]
pub enum DateVariable {
    Issued,
    Accessed,
    AvailableDate,
    EventDate,
    Submitted,
    OriginalDate,
}

/// A variable that holds a text. An entry never holds the last two: the label is handed in on its
/// own, and the year suffix is found by disambiguation.
#[derive(Clone, Copy, PartialEq, Eq, PartialOrd, Ord, Hash)]
pub enum StandardVariable {
    Title,
    ContainerTitle,
    Publisher,
    PublisherPlace,
    Note,
    Url,
    Doi,
    CitationLabel,
    YearSuffix,
}

/// A variable that holds a number. The first three belong to the cite at hand, the others to its
/// entry.
#[derive(Clone, Copy, PartialEq, Eq, PartialOrd, Ord, Hash)]
pub enum NumberVariable {
    CitationNumber,
    Locator,
    FirstReferenceNoteNumber,
    Volume,
    Issue,
    Number,
    Edition,
}

/// What a locator counts (CSL 1.0.2, appendix IV, locators).
#[derive(Clone, Copy, PartialEq, Eq, PartialOrd, Ord, Hash)]
pub enum Locator {
    Book,
    Chapter,
    Custom,
    Figure,
    Line,
    Note,
    Page,
    Paragraph,
    Part,
    Section,
    Supplement,
    Verse,
    Volume,
}

/// A term that a locale puts into words (CSL 1.0.2, appendix II).
#[derive(Clone, Copy, PartialEq, Eq, Hash)]
pub enum Term {
    Other(OtherTerm),
    Locator(Locator),
    NumberVariable(NumberVariable),
}

/// A term that is named after no variable and no locator.
#[derive(Clone, Copy, PartialEq, Eq, Hash)]
pub enum OtherTerm {
    Ad,
    Bc,
    NoDate,
    EtAl,
    And,
    Ibid,
    OpenQuote,
    CloseQuote,
    OpenInnerQuote,
    CloseInnerQuote,
}

/// A form of a term.
#[derive(Clone, Copy, PartialEq, Eq, Hash)]
pub enum TermForm {
    Long,
    Short,
    Verb,
    VerbShort,
    Symbol,
}

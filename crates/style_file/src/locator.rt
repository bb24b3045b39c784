//! Locator types (CSL 1.0.2, appendix II, locators).
use crate::rows::row_of;
use crate::term::PlainTerm;

/// What a locator counts.
#[derive(Clone, Copy, PartialEq, Eq)]
pub enum LocatorType {
    Act,
    Appendix,
    ArticleLocator,
    Book,
    Canon,
    Chapter,
    Column,
    Elocation,
    Equation,
    Figure,
    Folio,
    Issue,
    Line,
    Note,
    Opus,
    Page,
    Paragraph,
    Part,
    Rule,
    Scene,
    Section,
    SubVerbo,
    Supplement,
    Table,
    Timestamp,
    TitleLocator,
    Verse,
    Version,
    Volume,
}

/// The locator types, in the order of their names.
pub const LOCATOR_TYPES: &[(&str, LocatorType)] = &[
    ("act", LocatorType::Act),
    ("appendix", LocatorType::Appendix),
    ("article-locator", LocatorType::ArticleLocator),
    ("book", LocatorType::Book),
    ("canon", LocatorType::Canon),
    ("chapter", LocatorType::Chapter),
    ("column", LocatorType::Column),
    ("elocation", LocatorType::Elocation),
    ("equation", LocatorType::Equation),
    ("figure", LocatorType::Figure),
    ("folio", LocatorType::Folio),
    ("issue", LocatorType::Issue),
    ("line", LocatorType::Line),
    ("note", LocatorType::Note),
    ("opus", LocatorType::Opus),
    ("page", LocatorType::Page),
    ("paragraph", LocatorType::Paragraph),
    ("part", LocatorType::Part),
    ("rule", LocatorType::Rule),
    ("scene", LocatorType::Scene),
    ("section", LocatorType::Section),
    ("sub-verbo", LocatorType::SubVerbo),
    ("supplement", LocatorType::Supplement),
    ("table", LocatorType::Table),
    ("timestamp", LocatorType::Timestamp),
    ("title-locator", LocatorType::TitleLocator),
    ("verse", LocatorType::Verse),
    ("version", LocatorType::Version),
    ("volume", LocatorType::Volume),
];

/// Names that older versions of CSL have for locator types.
pub const OLDER_LOCATOR_TYPES: &[(&str, LocatorType)] = &[("sub verbo", LocatorType::SubVerbo)];

/// The terms of the locator types, in the same order.
const LOCATOR_TERMS: &[PlainTerm] = &[
    PlainTerm::Act,
    PlainTerm::Appendix,
    PlainTerm::ArticleLocator,
    PlainTerm::Book,
    PlainTerm::Canon,
    PlainTerm::Chapter,
    PlainTerm::Column,
    PlainTerm::Elocation,
    PlainTerm::Equation,
    PlainTerm::Figure,
    PlainTerm::Folio,
    PlainTerm::Issue,
    PlainTerm::Line,
    PlainTerm::Note,
    PlainTerm::Opus,
    PlainTerm::Page,
    PlainTerm::Paragraph,
    PlainTerm::Part,
    PlainTerm::Rule,
    PlainTerm::Scene,
    PlainTerm::Section,
    PlainTerm::SubVerbo,
    PlainTerm::Supplement,
    PlainTerm::Table,
    PlainTerm::Timestamp,
    PlainTerm::TitleLocator,
    PlainTerm::Verse,
    PlainTerm::Version,
    PlainTerm::Volume,
];

impl LocatorType {
    /// The name of the locator type.
    pub fn name(self) -> &'static str {
        LOCATOR_TYPES[self as usize].0
    }

    /// The locator type of this name, or of this older name.
    pub fn of_name(name: &str) -> Option<LocatorType> {
        row_of(LOCATOR_TYPES, name).or(row_of(OLDER_LOCATOR_TYPES, name))
    }

    /// The term that a label of the locator writes.
    pub fn term(self) -> PlainTerm {
        LOCATOR_TERMS[self as usize]
    }
}

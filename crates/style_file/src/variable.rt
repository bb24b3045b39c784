//! Variables (CSL 1.0.2, appendix IV).
use crate::rows::row_of;
use crate::term::PlainTerm;

/// A variable that holds text: a standard variable that is no number.
#[derive(Clone, Copy, PartialEq, Eq, Hash)]
pub enum TextVariable {
    Doi,
    Isbn,
    Issn,
    Pmcid,
    Pmid,
    Url,
    Abstract,
    Annote,
    Archive,
    ArchivePlace,
    ArchiveCollection,
    ArchiveLocation,
    Authority,
    CallNumber,
    CitationKey,
    CitationLabel,
    CollectionTitle,
    ContainerTitle,
    ContainerTitleShort,
    Dimensions,
    Division,
    EventPlace,
    EventTitle,
    Genre,
    Jurisdiction,
    Keyword,
    Language,
    License,
    Medium,
    Note,
    OriginalPublisher,
    OriginalPublisherPlace,
    OriginalTitle,
    PartTitle,
    Publisher,
    PublisherPlace,
    References,
    ReviewedGenre,
    ReviewedTitle,
    Scale,
    Source,
    Status,
    Title,
    TitleShort,
    VolumeTitle,
    YearSuffix,
}

/// The variables that hold text, in the order of their names.
pub const TEXT_VARIABLES: &[(&str, TextVariable)] = &[
    ("DOI", TextVariable::Doi),
    ("ISBN", TextVariable::Isbn),
    ("ISSN", TextVariable::Issn),
    ("PMCID", TextVariable::Pmcid),
    ("PMID", TextVariable::Pmid),
    ("URL", TextVariable::Url),
    ("abstract", TextVariable::Abstract),
    ("annote", TextVariable::Annote),
    ("archive", TextVariable::Archive),
    ("archive-place", TextVariable::ArchivePlace),
    ("archive_collection", TextVariable::ArchiveCollection),
    ("archive_location", TextVariable::ArchiveLocation),
    ("authority", TextVariable::Authority),
    ("call-number", TextVariable::CallNumber),
    ("citation-key", TextVariable::CitationKey),
    ("citation-label", TextVariable::CitationLabel),
    ("collection-title", TextVariable::CollectionTitle),
    ("container-title", TextVariable::ContainerTitle),
    ("container-title-short", TextVariable::ContainerTitleShort),
    ("dimensions", TextVariable::Dimensions),
    ("division", TextVariable::Division),
    ("event-place", TextVariable::EventPlace),
    ("event-title", TextVariable::EventTitle),
    ("genre", TextVariable::Genre),
    ("jurisdiction", TextVariable::Jurisdiction),
    ("keyword", TextVariable::Keyword),
    ("language", TextVariable::Language),
    ("license", TextVariable::License),
    ("medium", TextVariable::Medium),
    ("note", TextVariable::Note),
    ("original-publisher", TextVariable::OriginalPublisher),
    (
        "original-publisher-place",
        TextVariable::OriginalPublisherPlace,
    ),
    ("original-title", TextVariable::OriginalTitle),
    ("part-title", TextVariable::PartTitle),
    ("publisher", TextVariable::Publisher),
    ("publisher-place", TextVariable::PublisherPlace),
    ("references", TextVariable::References),
    ("reviewed-genre", TextVariable::ReviewedGenre),
    ("reviewed-title", TextVariable::ReviewedTitle),
    ("scale", TextVariable::Scale),
    ("source", TextVariable::Source),
    ("status", TextVariable::Status),
    ("title", TextVariable::Title),
    ("title-short", TextVariable::TitleShort),
    ("volume-title", TextVariable::VolumeTitle),
    ("year-suffix", TextVariable::YearSuffix),
];

/// Names that older versions of CSL, and items of Zotero and pandoc, have for text variables.
pub const OLDER_TEXT_VARIABLES: &[(&str, TextVariable)] = &[
    ("event", TextVariable::EventTitle),
    ("journalAbbreviation", TextVariable::ContainerTitleShort),
    ("shortTitle", TextVariable::TitleShort),
];

impl TextVariable {
    /// The name of the variable.
    pub fn name(self) -> &'static str {
        TEXT_VARIABLES[self as usize].0
    }

    /// The variable of this name, or of this older name.
    pub fn of_name(name: &str) -> Option<TextVariable> {
        row_of(TEXT_VARIABLES, name).or(row_of(OLDER_TEXT_VARIABLES, name))
    }
}

/// A variable that holds a number.
#[derive(Clone, Copy, PartialEq, Eq, Hash)]
pub enum NumberVariable {
    ChapterNumber,
    CitationNumber,
    CollectionNumber,
    Edition,
    FirstReferenceNoteNumber,
    Issue,
    Locator,
    Number,
    NumberOfPages,
    NumberOfVolumes,
    Page,
    PageFirst,
    PartNumber,
    PrintingNumber,
    Section,
    SupplementNumber,
    Version,
    Volume,
}

/// The variables that hold numbers, in the order of their names.
pub const NUMBER_VARIABLES: &[(&str, NumberVariable)] = &[
    ("chapter-number", NumberVariable::ChapterNumber),
    ("citation-number", NumberVariable::CitationNumber),
    ("collection-number", NumberVariable::CollectionNumber),
    ("edition", NumberVariable::Edition),
    (
        "first-reference-note-number",
        NumberVariable::FirstReferenceNoteNumber,
    ),
    ("issue", NumberVariable::Issue),
    ("locator", NumberVariable::Locator),
    ("number", NumberVariable::Number),
    ("number-of-pages", NumberVariable::NumberOfPages),
    ("number-of-volumes", NumberVariable::NumberOfVolumes),
    ("page", NumberVariable::Page),
    ("page-first", NumberVariable::PageFirst),
    ("part-number", NumberVariable::PartNumber),
    ("printing-number", NumberVariable::PrintingNumber),
    ("section", NumberVariable::Section),
    ("supplement-number", NumberVariable::SupplementNumber),
    ("version", NumberVariable::Version),
    ("volume", NumberVariable::Volume),
];

/// The terms of the number variables, in the same order.
const NUMBER_TERMS: &[PlainTerm] = &[
    PlainTerm::ChapterNumber,
    PlainTerm::CitationNumber,
    PlainTerm::CollectionNumber,
    PlainTerm::Edition,
    PlainTerm::FirstReferenceNoteNumber,
    PlainTerm::Issue,
    PlainTerm::Locator,
    PlainTerm::Number,
    PlainTerm::NumberOfPages,
    PlainTerm::NumberOfVolumes,
    PlainTerm::Page,
    PlainTerm::PageFirst,
    PlainTerm::PartNumber,
    PlainTerm::PrintingNumber,
    PlainTerm::Section,
    PlainTerm::SupplementNumber,
    PlainTerm::Version,
    PlainTerm::Volume,
];

impl NumberVariable {
    /// The name of the variable.
    pub fn name(self) -> &'static str {
        NUMBER_VARIABLES[self as usize].0
    }

    /// The variable of this name.
    pub fn of_name(name: &str) -> Option<NumberVariable> {
        row_of(NUMBER_VARIABLES, name)
    }

    /// The term that a label of the variable writes (the locator's own, for `locator`).
    pub fn term(self) -> PlainTerm {
        NUMBER_TERMS[self as usize]
    }
}

/// A variable that holds a date.
#[derive(Clone, Copy, PartialEq, Eq, Hash)]
pub enum DateVariable {
    Accessed,
    AvailableDate,
    EventDate,
    Issued,
    OriginalDate,
    Submitted,
}

/// The variables that hold dates, in the order of their names.
pub const DATE_VARIABLES: &[(&str, DateVariable)] = &[
    ("accessed", DateVariable::Accessed),
    ("available-date", DateVariable::AvailableDate),
    ("event-date", DateVariable::EventDate),
    ("issued", DateVariable::Issued),
    ("original-date", DateVariable::OriginalDate),
    ("submitted", DateVariable::Submitted),
];

impl DateVariable {
    /// The name of the variable.
    pub fn name(self) -> &'static str {
        DATE_VARIABLES[self as usize].0
    }

    /// The variable of this name.
    pub fn of_name(name: &str) -> Option<DateVariable> {
        row_of(DATE_VARIABLES, name)
    }
}

/// A variable that holds names.
#[derive(Clone, Copy, PartialEq, Eq, Hash)]
pub enum NameVariable {
    Author,
    Chair,
    CollectionEditor,
    Compiler,
    Composer,
    ContainerAuthor,
    Contributor,
    Curator,
    Director,
    Editor,
    EditorTranslator,
    EditorialDirector,
    ExecutiveProducer,
    Guest,
    Host,
    Illustrator,
    Interviewer,
    Narrator,
    Organizer,
    OriginalAuthor,
    Performer,
    Producer,
    Recipient,
    ReviewedAuthor,
    ScriptWriter,
    SeriesCreator,
    Translator,
}

/// The variables that hold names, in the order of their names.
pub const NAME_VARIABLES: &[(&str, NameVariable)] = &[
    ("author", NameVariable::Author),
    ("chair", NameVariable::Chair),
    ("collection-editor", NameVariable::CollectionEditor),
    ("compiler", NameVariable::Compiler),
    ("composer", NameVariable::Composer),
    ("container-author", NameVariable::ContainerAuthor),
    ("contributor", NameVariable::Contributor),
    ("curator", NameVariable::Curator),
    ("director", NameVariable::Director),
    ("editor", NameVariable::Editor),
    ("editor-translator", NameVariable::EditorTranslator),
    ("editorial-director", NameVariable::EditorialDirector),
    ("executive-producer", NameVariable::ExecutiveProducer),
    ("guest", NameVariable::Guest),
    ("host", NameVariable::Host),
    ("illustrator", NameVariable::Illustrator),
    ("interviewer", NameVariable::Interviewer),
    ("narrator", NameVariable::Narrator),
    ("organizer", NameVariable::Organizer),
    ("original-author", NameVariable::OriginalAuthor),
    ("performer", NameVariable::Performer),
    ("producer", NameVariable::Producer),
    ("recipient", NameVariable::Recipient),
    ("reviewed-author", NameVariable::ReviewedAuthor),
    ("script-writer", NameVariable::ScriptWriter),
    ("series-creator", NameVariable::SeriesCreator),
    ("translator", NameVariable::Translator),
];

/// The terms of the roles, in the same order.
const NAME_TERMS: &[PlainTerm] = &[
    PlainTerm::Author,
    PlainTerm::Chair,
    PlainTerm::CollectionEditor,
    PlainTerm::Compiler,
    PlainTerm::Composer,
    PlainTerm::ContainerAuthor,
    PlainTerm::Contributor,
    PlainTerm::Curator,
    PlainTerm::Director,
    PlainTerm::Editor,
    PlainTerm::EditorTranslator,
    PlainTerm::EditorialDirector,
    PlainTerm::ExecutiveProducer,
    PlainTerm::Guest,
    PlainTerm::Host,
    PlainTerm::Illustrator,
    PlainTerm::Interviewer,
    PlainTerm::Narrator,
    PlainTerm::Organizer,
    PlainTerm::OriginalAuthor,
    PlainTerm::Performer,
    PlainTerm::Producer,
    PlainTerm::Recipient,
    PlainTerm::ReviewedAuthor,
    PlainTerm::ScriptWriter,
    PlainTerm::SeriesCreator,
    PlainTerm::Translator,
];

impl NameVariable {
    /// The name of the variable.
    pub fn name(self) -> &'static str {
        NAME_VARIABLES[self as usize].0
    }

    /// The variable of this name.
    pub fn of_name(name: &str) -> Option<NameVariable> {
        row_of(NAME_VARIABLES, name)
    }

    /// The term that a label of the names writes: that of their role.
    pub fn term(self) -> PlainTerm {
        NAME_TERMS[self as usize]
    }
}

/// A variable of any kind.
#[derive(Clone, Copy, PartialEq, Eq, Hash)]
pub enum Variable {
    Text(TextVariable),
    Number(NumberVariable),
    Date(DateVariable),
    Name(NameVariable),
}

impl Variable {
    /// The name of the variable.
    pub fn name(self) -> &'static str {
        match self {
            Variable::Text(variable) => variable.name(),
            Variable::Number(variable) => variable.name(),
            Variable::Date(variable) => variable.name(),
            Variable::Name(variable) => variable.name(),
        }
    }

    /// The variable of this name, or of this older name. No two kinds share a name.
    pub fn of_name(name: &str) -> Option<Variable> {
        if let Some(variable) = TextVariable::of_name(name) {
            return Some(Variable::Text(variable));
        }
        if let Some(variable) = NumberVariable::of_name(name) {
            return Some(Variable::Number(variable));
        }
        if let Some(variable) = DateVariable::of_name(name) {
            return Some(Variable::Date(variable));
        }
        NameVariable::of_name(name).map(Variable::Name)
    }
}

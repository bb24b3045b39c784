//! What entries of .bib files are called, and what these names are in CSL.

/// The types of CSL, as pandoc has them.
const TYPES: &[(&str, &str)] = &[
    ("article", "article-journal"),
    ("artwork", "graphic"),
    ("audio", "song"),
    ("book", "book"),
    ("bookinbook", "chapter"),
    ("booklet", "pamphlet"),
    ("collection", "book"),
    ("commentary", "book"),
    ("conference", "paper-conference"),
    ("data", "dataset"),
    ("dataset", "dataset"),
    ("electronic", "webpage"),
    ("image", "graphic"),
    ("inbook", "chapter"),
    ("incollection", "chapter"),
    ("inproceedings", "paper-conference"),
    ("inreference", "entry-encyclopedia"),
    ("jurisdiction", "legal_case"),
    ("legal", "treaty"),
    ("legislation", "legislation"),
    ("letter", "personal_communication"),
    ("letters", "personal_communication"),
    ("manual", "book"),
    ("mastersthesis", "thesis"),
    ("misc", "document"),
    ("movie", "motion_picture"),
    ("music", "song"),
    ("mvbook", "book"),
    ("mvcollection", "book"),
    ("mvproceedings", "book"),
    ("mvreference", "book"),
    ("newsarticle", "article-newspaper"),
    ("online", "webpage"),
    ("patent", "patent"),
    ("performance", "speech"),
    ("periodical", "article-journal"),
    ("phdthesis", "thesis"),
    ("proceedings", "book"),
    ("reference", "book"),
    ("report", "report"),
    ("review", "review"),
    ("software", "book"),
    ("standard", "legislation"),
    ("suppbook", "chapter"),
    ("suppcollection", "chapter"),
    ("suppperiodical", "article-journal"),
    ("techreport", "report"),
    ("thesis", "thesis"),
    ("unpublished", "manuscript"),
    ("video", "motion_picture"),
    ("www", "webpage"),
];

/// The types of works in books.
const PARTS_OF_BOOKS: &[&str] = &[
    "bookinbook",
    "conference",
    "inbook",
    "incollection",
    "inproceedings",
    "inreference",
    "suppbook",
    "suppcollection",
];

/// The types of books.
const WHOLE_BOOKS: &[&str] = &[
    "book",
    "collection",
    "mvbook",
    "mvcollection",
    "mvproceedings",
    "mvreference",
    "proceedings",
    "reference",
];

/// The variables of CSL for kinds of editors beside the first.
const EDITORS: &[(&str, &str)] = &[
    ("director", "director"),
    ("compiler", "compiler"),
    ("organizer", "organizer"),
    ("illustrator", "illustrator"),
    ("composer", "composer"),
    ("narrator", "narrator"),
    ("producer", "producer"),
    ("collaborator", "contributor"),
    ("translator", "translator"),
];

/// Fields for the programs that keep or sort entries.
const SILENT: &[&str] = &[
    "added-at",
    "bibsource",
    "biburl",
    "bookpagination",
    "citation-key",
    "collection-id",
    "creationdate",
    "crossref",
    "date-added",
    "date-modified",
    "dateadded",
    "datemodified",
    "entryset",
    "execute",
    "file",
    "gender",
    "groups",
    "hyphenation",
    "indexsorttitle",
    "indextitle",
    "interhash",
    "intrahash",
    "issue_date",
    "key",
    "langid",
    "langidopts",
    "local-url",
    "localfile",
    "mendeley-groups",
    "mendeley-tags",
    "modificationdate",
    "nameaddon",
    "options",
    "owner",
    "pagination",
    "pdf",
    "presort",
    "printed",
    "priority",
    "ps",
    "ranking",
    "rating",
    "read",
    "readstatus",
    "related",
    "relatedoptions",
    "relatedstring",
    "relatedtype",
    "shorthandintro",
    "sortkey",
    "sortname",
    "sortshorthand",
    "sorttitle",
    "sortyear",
    "timestamp",
    "username",
    "xdata",
    "xref",
];

/// The fields that hold names, but for editors, and the variables of CSL.
pub const ROLES: &[(&str, &str)] = &[
    ("author", "author"),
    ("bookauthor", "container-author"),
    ("translator", "translator"),
    ("director", "director"),
    ("illustrator", "illustrator"),
    ("composer", "composer"),
    ("compiler", "compiler"),
    ("narrator", "narrator"),
    ("organizer", "organizer"),
    ("producer", "producer"),
    ("recipient", "recipient"),
    ("interviewer", "interviewer"),
];

/// The value beside the name.
pub fn row_of(rows: &[(&str, &'static str)], name: &str) -> Option<&'static str> {
    rows.iter().find(|row| row.0 == name).map(|row| row.1)
}

/// The type of CSL for a type of entries.
pub fn type_of(name: &str) -> Option<&'static str> {
    row_of(TYPES, name)
}

/// The variable of CSL for a kind of editors.
pub fn editor_variable(name: &str) -> Option<&'static str> {
    row_of(EDITORS, name)
}

fn has(words: &[&str], name: &str) -> bool {
    words.iter().any(|word| *word == name)
}

/// Whether works of a type stand in books.
pub fn is_part_of_book(name: &str) -> bool {
    has(PARTS_OF_BOOKS, name)
}

/// Whether a type is one of books.
pub fn is_whole_book(name: &str) -> bool {
    has(WHOLE_BOOKS, name)
}

/// Whether a field says nothing of the work.
pub fn is_silent(name: &str) -> bool {
    has(SILENT, name)
}

/// Whether a type is one of articles.
pub fn is_article(kind: &str) -> bool {
    matches!(kind, "article" | "periodical" | "suppperiodical" | "review")
}

//! The types and tags of RIS, and what they are in CSL.

/// The types of CSL.
const TYPES: &[(&str, &str)] = &[
    ("ABST", "article-journal"),
    ("ADVS", "motion_picture"),
    ("AGGR", "dataset"),
    ("ANCIENT", "classic"),
    ("ART", "graphic"),
    ("BILL", "bill"),
    ("BLOG", "post-weblog"),
    ("BOOK", "book"),
    ("CASE", "legal_case"),
    ("CHAP", "chapter"),
    ("CHART", "figure"),
    ("CLSWK", "classic"),
    ("COMP", "software"),
    ("CONF", "paper-conference"),
    ("CPAPER", "paper-conference"),
    ("CTLG", "book"),
    ("DATA", "dataset"),
    ("DBASE", "dataset"),
    ("DICT", "entry-dictionary"),
    ("EBOOK", "book"),
    ("ECHAP", "chapter"),
    ("EDBOOK", "book"),
    ("EJOUR", "article-journal"),
    ("ELEC", "webpage"),
    ("ENCYC", "entry-encyclopedia"),
    ("EQUA", "document"),
    ("FIGURE", "figure"),
    ("GEN", "document"),
    ("GOVDOC", "report"),
    ("GRANT", "document"),
    ("HEAR", "hearing"),
    ("ICOMM", "personal_communication"),
    ("INPR", "article-journal"),
    ("JFULL", "periodical"),
    ("JOUR", "article-journal"),
    ("LEGAL", "regulation"),
    ("MANSCPT", "manuscript"),
    ("MAP", "map"),
    ("MGZN", "article-magazine"),
    ("MPCT", "motion_picture"),
    ("MULTI", "document"),
    ("MUSIC", "musical_score"),
    ("NEWS", "article-newspaper"),
    ("PAMP", "pamphlet"),
    ("PAT", "patent"),
    ("PCOMM", "personal_communication"),
    ("RPRT", "report"),
    ("SER", "book"),
    ("SLIDE", "graphic"),
    ("SOUND", "song"),
    ("STAND", "standard"),
    ("STAT", "legislation"),
    ("THES", "thesis"),
    ("UNBILL", "bill"),
    ("UNPB", "manuscript"),
    ("UNPD", "manuscript"),
    ("VIDEO", "motion_picture"),
    ("WEB", "webpage"),
];

/// What a tag says.
#[derive(Clone, Copy, PartialEq, Eq)]
pub(crate) enum Tag {
    /// A text beside a variable. Of several the first counts.
    Text(&'static str),
    /// Texts beside a variable, with a sign between them.
    Texts(&'static str, &'static str),
    Names(&'static str),
    Date(&'static str),
    /// What contains the work, or the series of a book.
    Container,
    /// The title of a book.
    BookTitle,
    /// Editors, or those of the series of a book.
    Editors,
    FirstPage,
    LastPage,
    /// An issue, or a number.
    Issue,
    /// An ISBN or an ISSN.
    Number,
    Doi,
    /// A genre, or a DOI.
    Kind,
    Id,
    /// It says nothing of the work.
    Silent,
    Unknown,
}

const TAGS: &[(&str, Tag)] = &[
    ("A1", Tag::Names("author")),
    ("A2", Tag::Editors),
    ("A3", Tag::Names("collection-editor")),
    ("A4", Tag::Names("translator")),
    ("AB", Tag::Text("abstract")),
    ("AN", Tag::Text("archive_location")),
    ("AU", Tag::Names("author")),
    ("BT", Tag::BookTitle),
    ("CN", Tag::Text("call-number")),
    ("CT", Tag::Text("title")),
    ("CY", Tag::Text("publisher-place")),
    ("DA", Tag::Date("issued")),
    ("DB", Tag::Text("archive")),
    ("DO", Tag::Doi),
    ("DP", Tag::Text("source")),
    ("ED", Tag::Names("editor")),
    ("EP", Tag::LastPage),
    ("ET", Tag::Text("edition")),
    ("ID", Tag::Id),
    ("IS", Tag::Issue),
    ("J1", Tag::Text("container-title-short")),
    ("J2", Tag::Text("container-title-short")),
    ("JA", Tag::Text("container-title-short")),
    ("JF", Tag::Container),
    ("JO", Tag::Container),
    ("KW", Tag::Texts("keyword", ", ")),
    ("L1", Tag::Silent),
    ("L2", Tag::Silent),
    ("L3", Tag::Silent),
    ("L4", Tag::Silent),
    ("LA", Tag::Text("language")),
    ("LB", Tag::Silent),
    ("LK", Tag::Text("URL")),
    ("M3", Tag::Kind),
    ("N1", Tag::Texts("note", "; ")),
    ("N2", Tag::Text("abstract")),
    ("NV", Tag::Text("number-of-volumes")),
    ("PB", Tag::Text("publisher")),
    ("PP", Tag::Text("publisher-place")),
    ("PY", Tag::Date("issued")),
    ("RN", Tag::Texts("note", "; ")),
    ("SE", Tag::Text("section")),
    ("SN", Tag::Number),
    ("SP", Tag::FirstPage),
    ("ST", Tag::Text("title-short")),
    ("T1", Tag::Text("title")),
    ("T2", Tag::Container),
    ("T3", Tag::Text("collection-title")),
    ("TA", Tag::Names("translator")),
    ("TI", Tag::Text("title")),
    ("UR", Tag::Text("URL")),
    ("VL", Tag::Text("volume")),
    ("Y1", Tag::Date("issued")),
    ("Y2", Tag::Date("accessed")),
];

/// The value beside the name.
fn row_of<V: Copy>(rows: &[(&str, V)], name: &str) -> Option<V> {
    rows.iter().find(|row| row.0 == name).map(|row| row.1)
}

/// The type of CSL for a type of RIS.
pub(crate) fn type_of(kind: &str) -> Option<&'static str> {
    row_of(TYPES, kind)
}

/// What a tag says.
pub(crate) fn tag_of(tag: &str) -> Tag {
    row_of(TAGS, tag).unwrap_or(Tag::Unknown)
}

/// Whether an item of this type is a book, so that what contains it is a series.
pub(crate) fn is_book(item_type: &str) -> bool {
    matches!(item_type, "book" | "classic")
}

/// Whether an item of this type stands in a book, or is one.
pub(crate) fn has_isbn(item_type: &str) -> bool {
    is_book(item_type)
        || matches!(
            item_type,
            "chapter" | "paper-conference" | "entry-dictionary" | "entry-encyclopedia" | "pamphlet"
        )
}

/// Whether the number of an item of this type is that of an issue.
pub(crate) fn has_issue(item_type: &str) -> bool {
    item_type.starts_with("article") || item_type == "periodical"
}

//! Terms (CSL 1.0.2, appendix II), their forms and their genders.
use crate::rows::row_of;
use std::fmt;

/// A term with a name of its own, of any kind: general terms, punctuation, months, seasons, roles,
/// locators, number variables and item types. Where kinds share a name, they share the term.
#[derive(Clone, Copy, PartialEq, Eq, Hash)]
pub enum PlainTerm {
    Accessed,
    Act,
    Ad,
    AdvanceOnlinePublication,
    Album,
    And,
    AndOthers,
    Anonymous,
    Appendix,
    Article,
    ArticleJournal,
    ArticleLocator,
    ArticleMagazine,
    ArticleNewspaper,
    At,
    AudioRecording,
    Author,
    AvailableAt,
    Bc,
    Bce,
    Bill,
    Book,
    Broadcast,
    By,
    Canon,
    Ce,
    Chair,
    Chapter,
    ChapterNumber,
    Circa,
    CitationNumber,
    Cited,
    Classic,
    CloseInnerQuote,
    CloseQuote,
    Collection,
    CollectionEditor,
    CollectionNumber,
    Colon,
    Column,
    Comma,
    Compiler,
    Composer,
    ContainerAuthor,
    Contributor,
    Curator,
    Dataset,
    Director,
    Document,
    Edition,
    Editor,
    EditorTranslator,
    EditorialDirector,
    Elocation,
    Entry,
    EntryDictionary,
    EntryEncyclopedia,
    Equation,
    EtAl,
    Event,
    ExecutiveProducer,
    Figure,
    Film,
    FirstReferenceNoteNumber,
    Folio,
    Forthcoming,
    From,
    Graphic,
    Guest,
    Hearing,
    Henceforth,
    Host,
    Ibid,
    Illustrator,
    In,
    InPress,
    Internet,
    Interview,
    Interviewer,
    Issue,
    LegalCase,
    Legislation,
    Letter,
    Line,
    LocCit,
    Locator,
    Manuscript,
    Map,
    January,
    February,
    March,
    April,
    May,
    June,
    July,
    August,
    September,
    October,
    November,
    December,
    MotionPicture,
    MusicalScore,
    Narrator,
    NoDate,
    NoPlace,
    NoPublisher,
    Note,
    Number,
    NumberOfPages,
    NumberOfVolumes,
    On,
    Online,
    OpCit,
    OpenInnerQuote,
    OpenQuote,
    Opus,
    Ordinal,
    Organizer,
    OriginalAuthor,
    OriginalWorkPublished,
    Page,
    PageFirst,
    PageRangeDelimiter,
    Pamphlet,
    PaperConference,
    Paragraph,
    Part,
    PartNumber,
    Patent,
    Performance,
    Performer,
    Periodical,
    PersonalCommunication,
    PersonalCommunicationItem,
    Podcast,
    PodcastEpisode,
    Post,
    PostWeblog,
    Preprint,
    PresentedAt,
    PrintingNumber,
    Producer,
    RadioBroadcast,
    RadioSeries,
    RadioSeriesEpisode,
    Recipient,
    Reference,
    Regulation,
    Report,
    Retrieved,
    Review,
    ReviewBook,
    ReviewOf,
    ReviewedAuthor,
    Rule,
    Scale,
    Scene,
    ScriptWriter,
    Spring,
    Summer,
    Autumn,
    Winter,
    Section,
    Semicolon,
    SeriesCreator,
    Software,
    Song,
    SpecialIssue,
    SpecialSection,
    Speech,
    Standard,
    SubVerbo,
    Supplement,
    SupplementNumber,
    Table,
    TelevisionBroadcast,
    TelevisionSeries,
    TelevisionSeriesEpisode,
    Thesis,
    Timestamp,
    TitleLocator,
    Translator,
    Treaty,
    Verse,
    Version,
    Video,
    Volume,
    Webpage,
    WorkingPaper,
}

/// The terms with names of their own, in the order of these names.
pub const PLAIN_TERMS: &[(&str, PlainTerm)] = &[
    ("accessed", PlainTerm::Accessed),
    ("act", PlainTerm::Act),
    ("ad", PlainTerm::Ad),
    (
        "advance-online-publication",
        PlainTerm::AdvanceOnlinePublication,
    ),
    ("album", PlainTerm::Album),
    ("and", PlainTerm::And),
    ("and others", PlainTerm::AndOthers),
    ("anonymous", PlainTerm::Anonymous),
    ("appendix", PlainTerm::Appendix),
    ("article", PlainTerm::Article),
    ("article-journal", PlainTerm::ArticleJournal),
    ("article-locator", PlainTerm::ArticleLocator),
    ("article-magazine", PlainTerm::ArticleMagazine),
    ("article-newspaper", PlainTerm::ArticleNewspaper),
    ("at", PlainTerm::At),
    ("audio-recording", PlainTerm::AudioRecording),
    ("author", PlainTerm::Author),
    ("available at", PlainTerm::AvailableAt),
    ("bc", PlainTerm::Bc),
    ("bce", PlainTerm::Bce),
    ("bill", PlainTerm::Bill),
    ("book", PlainTerm::Book),
    ("broadcast", PlainTerm::Broadcast),
    ("by", PlainTerm::By),
    ("canon", PlainTerm::Canon),
    ("ce", PlainTerm::Ce),
    ("chair", PlainTerm::Chair),
    ("chapter", PlainTerm::Chapter),
    ("chapter-number", PlainTerm::ChapterNumber),
    ("circa", PlainTerm::Circa),
    ("citation-number", PlainTerm::CitationNumber),
    ("cited", PlainTerm::Cited),
    ("classic", PlainTerm::Classic),
    ("close-inner-quote", PlainTerm::CloseInnerQuote),
    ("close-quote", PlainTerm::CloseQuote),
    ("collection", PlainTerm::Collection),
    ("collection-editor", PlainTerm::CollectionEditor),
    ("collection-number", PlainTerm::CollectionNumber),
    ("colon", PlainTerm::Colon),
    ("column", PlainTerm::Column),
    ("comma", PlainTerm::Comma),
    ("compiler", PlainTerm::Compiler),
    ("composer", PlainTerm::Composer),
    ("container-author", PlainTerm::ContainerAuthor),
    ("contributor", PlainTerm::Contributor),
    ("curator", PlainTerm::Curator),
    ("dataset", PlainTerm::Dataset),
    ("director", PlainTerm::Director),
    ("document", PlainTerm::Document),
    ("edition", PlainTerm::Edition),
    ("editor", PlainTerm::Editor),
    ("editor-translator", PlainTerm::EditorTranslator),
    ("editorial-director", PlainTerm::EditorialDirector),
    ("elocation", PlainTerm::Elocation),
    ("entry", PlainTerm::Entry),
    ("entry-dictionary", PlainTerm::EntryDictionary),
    ("entry-encyclopedia", PlainTerm::EntryEncyclopedia),
    ("equation", PlainTerm::Equation),
    ("et-al", PlainTerm::EtAl),
    ("event", PlainTerm::Event),
    ("executive-producer", PlainTerm::ExecutiveProducer),
    ("figure", PlainTerm::Figure),
    ("film", PlainTerm::Film),
    (
        "first-reference-note-number",
        PlainTerm::FirstReferenceNoteNumber,
    ),
    ("folio", PlainTerm::Folio),
    ("forthcoming", PlainTerm::Forthcoming),
    ("from", PlainTerm::From),
    ("graphic", PlainTerm::Graphic),
    ("guest", PlainTerm::Guest),
    ("hearing", PlainTerm::Hearing),
    ("henceforth", PlainTerm::Henceforth),
    ("host", PlainTerm::Host),
    ("ibid", PlainTerm::Ibid),
    ("illustrator", PlainTerm::Illustrator),
    ("in", PlainTerm::In),
    ("in press", PlainTerm::InPress),
    ("internet", PlainTerm::Internet),
    ("interview", PlainTerm::Interview),
    ("interviewer", PlainTerm::Interviewer),
    ("issue", PlainTerm::Issue),
    ("legal_case", PlainTerm::LegalCase),
    ("legislation", PlainTerm::Legislation),
    ("letter", PlainTerm::Letter),
    ("line", PlainTerm::Line),
    ("loc-cit", PlainTerm::LocCit),
    ("locator", PlainTerm::Locator),
    ("manuscript", PlainTerm::Manuscript),
    ("map", PlainTerm::Map),
    ("month-01", PlainTerm::January),
    ("month-02", PlainTerm::February),
    ("month-03", PlainTerm::March),
    ("month-04", PlainTerm::April),
    ("month-05", PlainTerm::May),
    ("month-06", PlainTerm::June),
    ("month-07", PlainTerm::July),
    ("month-08", PlainTerm::August),
    ("month-09", PlainTerm::September),
    ("month-10", PlainTerm::October),
    ("month-11", PlainTerm::November),
    ("month-12", PlainTerm::December),
    ("motion_picture", PlainTerm::MotionPicture),
    ("musical_score", PlainTerm::MusicalScore),
    ("narrator", PlainTerm::Narrator),
    ("no date", PlainTerm::NoDate),
    ("no-place", PlainTerm::NoPlace),
    ("no-publisher", PlainTerm::NoPublisher),
    ("note", PlainTerm::Note),
    ("number", PlainTerm::Number),
    ("number-of-pages", PlainTerm::NumberOfPages),
    ("number-of-volumes", PlainTerm::NumberOfVolumes),
    ("on", PlainTerm::On),
    ("online", PlainTerm::Online),
    ("op-cit", PlainTerm::OpCit),
    ("open-inner-quote", PlainTerm::OpenInnerQuote),
    ("open-quote", PlainTerm::OpenQuote),
    ("opus", PlainTerm::Opus),
    ("ordinal", PlainTerm::Ordinal),
    ("organizer", PlainTerm::Organizer),
    ("original-author", PlainTerm::OriginalAuthor),
    ("original-work-published", PlainTerm::OriginalWorkPublished),
    ("page", PlainTerm::Page),
    ("page-first", PlainTerm::PageFirst),
    ("page-range-delimiter", PlainTerm::PageRangeDelimiter),
    ("pamphlet", PlainTerm::Pamphlet),
    ("paper-conference", PlainTerm::PaperConference),
    ("paragraph", PlainTerm::Paragraph),
    ("part", PlainTerm::Part),
    ("part-number", PlainTerm::PartNumber),
    ("patent", PlainTerm::Patent),
    ("performance", PlainTerm::Performance),
    ("performer", PlainTerm::Performer),
    ("periodical", PlainTerm::Periodical),
    ("personal-communication", PlainTerm::PersonalCommunication),
    (
        "personal_communication",
        PlainTerm::PersonalCommunicationItem,
    ),
    ("podcast", PlainTerm::Podcast),
    ("podcast-episode", PlainTerm::PodcastEpisode),
    ("post", PlainTerm::Post),
    ("post-weblog", PlainTerm::PostWeblog),
    ("preprint", PlainTerm::Preprint),
    ("presented at", PlainTerm::PresentedAt),
    ("printing-number", PlainTerm::PrintingNumber),
    ("producer", PlainTerm::Producer),
    ("radio-broadcast", PlainTerm::RadioBroadcast),
    ("radio-series", PlainTerm::RadioSeries),
    ("radio-series-episode", PlainTerm::RadioSeriesEpisode),
    ("recipient", PlainTerm::Recipient),
    ("reference", PlainTerm::Reference),
    ("regulation", PlainTerm::Regulation),
    ("report", PlainTerm::Report),
    ("retrieved", PlainTerm::Retrieved),
    ("review", PlainTerm::Review),
    ("review-book", PlainTerm::ReviewBook),
    ("review-of", PlainTerm::ReviewOf),
    ("reviewed-author", PlainTerm::ReviewedAuthor),
    ("rule", PlainTerm::Rule),
    ("scale", PlainTerm::Scale),
    ("scene", PlainTerm::Scene),
    ("script-writer", PlainTerm::ScriptWriter),
    ("season-01", PlainTerm::Spring),
    ("season-02", PlainTerm::Summer),
    ("season-03", PlainTerm::Autumn),
    ("season-04", PlainTerm::Winter),
    ("section", PlainTerm::Section),
    ("semicolon", PlainTerm::Semicolon),
    ("series-creator", PlainTerm::SeriesCreator),
    ("software", PlainTerm::Software),
    ("song", PlainTerm::Song),
    ("special-issue", PlainTerm::SpecialIssue),
    ("special-section", PlainTerm::SpecialSection),
    ("speech", PlainTerm::Speech),
    ("standard", PlainTerm::Standard),
    ("sub-verbo", PlainTerm::SubVerbo),
    ("supplement", PlainTerm::Supplement),
    ("supplement-number", PlainTerm::SupplementNumber),
    ("table", PlainTerm::Table),
    ("television-broadcast", PlainTerm::TelevisionBroadcast),
    ("television-series", PlainTerm::TelevisionSeries),
    (
        "television-series-episode",
        PlainTerm::TelevisionSeriesEpisode,
    ),
    ("thesis", PlainTerm::Thesis),
    ("timestamp", PlainTerm::Timestamp),
    ("title-locator", PlainTerm::TitleLocator),
    ("translator", PlainTerm::Translator),
    ("treaty", PlainTerm::Treaty),
    ("verse", PlainTerm::Verse),
    ("version", PlainTerm::Version),
    ("video", PlainTerm::Video),
    ("volume", PlainTerm::Volume),
    ("webpage", PlainTerm::Webpage),
    ("working-paper", PlainTerm::WorkingPaper),
];

/// Names that older versions of CSL have for terms.
pub const OLDER_PLAIN_TERMS: &[(&str, PlainTerm)] = &[
    ("editortranslator", PlainTerm::EditorTranslator),
    ("sub verbo", PlainTerm::SubVerbo),
];

impl PlainTerm {
    /// The name of the term.
    pub fn name(self) -> &'static str {
        PLAIN_TERMS[self as usize].0
    }

    /// The term of this name, or of this older name.
    pub fn of_name(name: &str) -> Option<PlainTerm> {
        row_of(PLAIN_TERMS, name).or(row_of(OLDER_PLAIN_TERMS, name))
    }
}

/// The name of a term.
#[derive(Clone, Copy, PartialEq, Eq, Hash)]
pub enum TermName {
    Plain(PlainTerm),
    /// The suffix of ordinals that end in this number, from 0 to 99: `ordinal-00` to `ordinal-99`.
    Ordinal(u8),
    /// The word for this ordinal, from 1 to 10: `long-ordinal-01` to `long-ordinal-10`.
    LongOrdinal(u8),
}

impl TermName {
    /// The term of this name, or of this older name.
    pub fn of_name(name: &str) -> Option<TermName> {
        if let Some(term) = PlainTerm::of_name(name) {
            return Some(TermName::Plain(term));
        }
        if let Some(digits) = name.strip_prefix("long-ordinal-") {
            return two_digits(digits)
                .filter(|number| matches!(number, 1..=10))
                .map(TermName::LongOrdinal);
        }
        two_digits(name.strip_prefix("ordinal-")?).map(TermName::Ordinal)
    }
}

impl fmt::Display for TermName {
    fn fmt<W: fmt::Write>(&self, f: &mut fmt::Formatter<W>) -> fmt::Result {
        match self {
            TermName::Plain(term) => f.write_str(term.name()),
            TermName::Ordinal(number) => write!(f, "ordinal-{number:02}"),
            TermName::LongOrdinal(number) => write!(f, "long-ordinal-{number:02}"),
        }
    }
}

/// The number that two digits write.
fn two_digits(text: &str) -> Option<u8> {
    match text.as_bytes() {
        [tens @ b'0'..=b'9', ones @ b'0'..=b'9'] => Some((*tens - b'0') * 10 + (*ones - b'0')),
        _ => None,
    }
}

/// A form of a term.
#[derive(Clone, Copy, PartialEq, Eq, Hash)]
pub enum TermForm {
    Long,
    Short,
    Symbol,
    Verb,
    VerbShort,
}

/// The forms of terms, in the order of their names.
pub const TERM_FORMS: &[(&str, TermForm)] = &[
    ("long", TermForm::Long),
    ("short", TermForm::Short),
    ("symbol", TermForm::Symbol),
    ("verb", TermForm::Verb),
    ("verb-short", TermForm::VerbShort),
];

impl TermForm {
    /// The name of the form.
    pub fn name(self) -> &'static str {
        TERM_FORMS[self as usize].0
    }

    /// The form of this name.
    pub fn of_name(name: &str) -> Option<TermForm> {
        row_of(TERM_FORMS, name)
    }

    /// The form that stands for this one where a locale lacks it.
    pub fn fallback(self) -> Option<TermForm> {
        match self {
            TermForm::Long => None,
            TermForm::Short | TermForm::Verb => Some(TermForm::Long),
            TermForm::Symbol => Some(TermForm::Short),
            TermForm::VerbShort => Some(TermForm::Verb),
        }
    }
}

/// The grammatical gender of a term, or the one that an ordinal takes.
#[derive(Clone, Copy, PartialEq, Eq)]
pub enum Gender {
    Feminine,
    Masculine,
    Neuter,
}

/// The genders, in the order of their names.
pub const GENDERS: &[(&str, Gender)] = &[
    ("feminine", Gender::Feminine),
    ("masculine", Gender::Masculine),
    ("neuter", Gender::Neuter),
];

impl Gender {
    /// The name of the gender.
    pub fn name(self) -> &'static str {
        GENDERS[self as usize].0
    }

    /// The gender of this name.
    pub fn of_name(name: &str) -> Option<Gender> {
        row_of(GENDERS, name)
    }
}

/// Which numbers an ordinal's suffix is for.
#[derive(Clone, Copy, PartialEq, Eq)]
pub enum OrdinalMatch {
    LastDigit,
    LastTwoDigits,
    WholeNumber,
}

/// The ways to match ordinals, in the order of their names.
pub const ORDINAL_MATCHES: &[(&str, OrdinalMatch)] = &[
    ("last-digit", OrdinalMatch::LastDigit),
    ("last-two-digits", OrdinalMatch::LastTwoDigits),
    ("whole-number", OrdinalMatch::WholeNumber),
];

impl OrdinalMatch {
    /// The name of the match.
    pub fn name(self) -> &'static str {
        ORDINAL_MATCHES[self as usize].0
    }

    /// The match of this name.
    pub fn of_name(name: &str) -> Option<OrdinalMatch> {
        row_of(ORDINAL_MATCHES, name)
    }
}

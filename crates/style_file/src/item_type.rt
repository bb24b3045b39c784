//! Item types (CSL 1.0.2, appendix III).
use crate::rows::row_of;
use crate::term::PlainTerm;

/// What an item is.
#[derive(Clone, Copy, PartialEq, Eq)]
pub enum ItemType {
    Article,
    ArticleJournal,
    ArticleMagazine,
    ArticleNewspaper,
    Bill,
    Book,
    Broadcast,
    Chapter,
    Classic,
    Collection,
    Dataset,
    Document,
    Entry,
    EntryDictionary,
    EntryEncyclopedia,
    Event,
    Figure,
    Graphic,
    Hearing,
    Interview,
    LegalCase,
    Legislation,
    Manuscript,
    Map,
    MotionPicture,
    MusicalScore,
    Pamphlet,
    PaperConference,
    Patent,
    Performance,
    Periodical,
    PersonalCommunication,
    Post,
    PostWeblog,
    Regulation,
    Report,
    Review,
    ReviewBook,
    Software,
    Song,
    Speech,
    Standard,
    Thesis,
    Treaty,
    Webpage,
}

/// The item types, in the order of their names.
pub const ITEM_TYPES: &[(&str, ItemType)] = &[
    ("article", ItemType::Article),
    ("article-journal", ItemType::ArticleJournal),
    ("article-magazine", ItemType::ArticleMagazine),
    ("article-newspaper", ItemType::ArticleNewspaper),
    ("bill", ItemType::Bill),
    ("book", ItemType::Book),
    ("broadcast", ItemType::Broadcast),
    ("chapter", ItemType::Chapter),
    ("classic", ItemType::Classic),
    ("collection", ItemType::Collection),
    ("dataset", ItemType::Dataset),
    ("document", ItemType::Document),
    ("entry", ItemType::Entry),
    ("entry-dictionary", ItemType::EntryDictionary),
    ("entry-encyclopedia", ItemType::EntryEncyclopedia),
    ("event", ItemType::Event),
    ("figure", ItemType::Figure),
    ("graphic", ItemType::Graphic),
    ("hearing", ItemType::Hearing),
    ("interview", ItemType::Interview),
    ("legal_case", ItemType::LegalCase),
    ("legislation", ItemType::Legislation),
    ("manuscript", ItemType::Manuscript),
    ("map", ItemType::Map),
    ("motion_picture", ItemType::MotionPicture),
    ("musical_score", ItemType::MusicalScore),
    ("pamphlet", ItemType::Pamphlet),
    ("paper-conference", ItemType::PaperConference),
    ("patent", ItemType::Patent),
    ("performance", ItemType::Performance),
    ("periodical", ItemType::Periodical),
    ("personal_communication", ItemType::PersonalCommunication),
    ("post", ItemType::Post),
    ("post-weblog", ItemType::PostWeblog),
    ("regulation", ItemType::Regulation),
    ("report", ItemType::Report),
    ("review", ItemType::Review),
    ("review-book", ItemType::ReviewBook),
    ("software", ItemType::Software),
    ("song", ItemType::Song),
    ("speech", ItemType::Speech),
    ("standard", ItemType::Standard),
    ("thesis", ItemType::Thesis),
    ("treaty", ItemType::Treaty),
    ("webpage", ItemType::Webpage),
];

/// The terms of the item types, in the same order.
const ITEM_TYPE_TERMS: &[PlainTerm] = &[
    PlainTerm::Article,
    PlainTerm::ArticleJournal,
    PlainTerm::ArticleMagazine,
    PlainTerm::ArticleNewspaper,
    PlainTerm::Bill,
    PlainTerm::Book,
    PlainTerm::Broadcast,
    PlainTerm::Chapter,
    PlainTerm::Classic,
    PlainTerm::Collection,
    PlainTerm::Dataset,
    PlainTerm::Document,
    PlainTerm::Entry,
    PlainTerm::EntryDictionary,
    PlainTerm::EntryEncyclopedia,
    PlainTerm::Event,
    PlainTerm::Figure,
    PlainTerm::Graphic,
    PlainTerm::Hearing,
    PlainTerm::Interview,
    PlainTerm::LegalCase,
    PlainTerm::Legislation,
    PlainTerm::Manuscript,
    PlainTerm::Map,
    PlainTerm::MotionPicture,
    PlainTerm::MusicalScore,
    PlainTerm::Pamphlet,
    PlainTerm::PaperConference,
    PlainTerm::Patent,
    PlainTerm::Performance,
    PlainTerm::Periodical,
    PlainTerm::PersonalCommunicationItem,
    PlainTerm::Post,
    PlainTerm::PostWeblog,
    PlainTerm::Regulation,
    PlainTerm::Report,
    PlainTerm::Review,
    PlainTerm::ReviewBook,
    PlainTerm::Software,
    PlainTerm::Song,
    PlainTerm::Speech,
    PlainTerm::Standard,
    PlainTerm::Thesis,
    PlainTerm::Treaty,
    PlainTerm::Webpage,
];

impl ItemType {
    /// The name of the item type.
    pub fn name(self) -> &'static str {
        ITEM_TYPES[self as usize].0
    }

    /// The item type of this name.
    pub fn of_name(name: &str) -> Option<ItemType> {
        row_of(ITEM_TYPES, name)
    }

    /// The term that names the item type.
    pub fn term(self) -> PlainTerm {
        ITEM_TYPE_TERMS[self as usize]
    }
}

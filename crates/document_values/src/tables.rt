//! How a document names the values of enums: in lower case, with hyphens between words.
ghost use Rattle.document_values.specs.Tables as tables;
ghost use Rattle.document_values.specs.Tables.{AreRowsOf};

use csl_base::element::{ChooseMatch, NameAnd, NameForm, TestPosition};
use csl_base::formatting::{Display, FontVariant, TextDecoration, VerticalAlign};
use csl_base::style::{
    CitationFormat, Collapse, DisambiguationRule, SecondFieldAlign, StyleCategory, StyleClass,
    SubsequentAuthorSubstituteRule,
};
use csl_base::taxonomy::{
    DateVariable, Locator, NameVariable, NumberVariable, OtherTerm, StandardVariable, TermForm,
};
use driver_lookup::apart::Apart;
use driver_lookup::purpose::CitePurpose;

/// The categories of styles: the forms of their cites.
pub const CATEGORIES: &[(&str, StyleCategory)] = &[
    (
        "author-date",
        StyleCategory::CitationFormat {
            format: CitationFormat::AuthorDate,
        },
    ),
    (
        "author",
        StyleCategory::CitationFormat {
            format: CitationFormat::Author,
        },
    ),
    (
        "numeric",
        StyleCategory::CitationFormat {
            format: CitationFormat::Numeric,
        },
    ),
    (
        "label",
        StyleCategory::CitationFormat {
            format: CitationFormat::Label,
        },
    ),
    (
        "note",
        StyleCategory::CitationFormat {
            format: CitationFormat::Note,
        },
    ),
];

/// The classes of styles.
pub const CLASSES: &[(&str, StyleClass)] = &[
    ("in-text", StyleClass::InText),
    ("note", StyleClass::Note),
];

/// Which names are made fuller.
pub const GIVEN_NAME_RULES: &[(&str, DisambiguationRule)] = &[
    ("all-names", DisambiguationRule::AllNames),
    (
        "all-names-with-initials",
        DisambiguationRule::AllNamesWithInitials,
    ),
    ("primary-name", DisambiguationRule::PrimaryName),
    (
        "primary-name-with-initials",
        DisambiguationRule::PrimaryNameWithInitials,
    ),
    ("by-cite", DisambiguationRule::ByCite),
];

/// The ways of collapsing.
pub const COLLAPSES: &[(&str, Collapse)] = &[
    ("citation-number", Collapse::CitationNumber),
    ("year", Collapse::Year),
    ("year-suffix", Collapse::YearSuffix),
    ("year-suffix-ranged", Collapse::YearSuffixRanged),
];

/// Where a second field is aligned.
pub const SECOND_FIELD_ALIGNS: &[(&str, SecondFieldAlign)] = &[
    ("flush", SecondFieldAlign::Flush),
    ("margin", SecondFieldAlign::Margin),
];

/// Which repeated names are substituted.
pub const SUBSTITUTE_RULES: &[(&str, SubsequentAuthorSubstituteRule)] = &[
    ("complete-all", SubsequentAuthorSubstituteRule::CompleteAll),
    (
        "complete-each",
        SubsequentAuthorSubstituteRule::CompleteEach,
    ),
    ("partial-each", SubsequentAuthorSubstituteRule::PartialEach),
    (
        "partial-first",
        SubsequentAuthorSubstituteRule::PartialFirst,
    ),
];

/// The words before a last name.
pub const NAME_ANDS: &[(&str, NameAnd)] = &[("text", NameAnd::Text), ("symbol", NameAnd::Symbol)];

/// How much of a name is written.
pub const NAME_FORMS: &[(&str, NameForm)] = &[("long", NameForm::Long), ("short", NameForm::Short)];

/// Whether letters are small capitals.
pub const FONT_VARIANTS: &[(&str, FontVariant)] = &[
    ("normal", FontVariant::Normal),
    ("small-caps", FontVariant::SmallCaps),
];

/// Whether a line stands under letters.
pub const TEXT_DECORATIONS: &[(&str, TextDecoration)] = &[
    ("none", TextDecoration::None),
    ("underline", TextDecoration::Underline),
];

/// Where letters stand on their line.
pub const VERTICAL_ALIGNS: &[(&str, VerticalAlign)] = &[
    ("none", VerticalAlign::None),
    ("baseline", VerticalAlign::Baseline),
    ("sup", VerticalAlign::Superscript),
    ("sub", VerticalAlign::Subscript),
];

/// How an element is set off.
pub const DISPLAYS: &[(&str, Display)] = &[
    ("block", Display::Block),
    ("left-margin", Display::LeftMargin),
    ("right-inline", Display::RightInline),
    ("indent", Display::Indent),
];

/// The variables that hold persons.
pub const NAME_VARIABLES: &[(&str, NameVariable)] = &[
    ("author", NameVariable::Author),
    ("editor", NameVariable::Editor),
    ("translator", NameVariable::Translator),
];

/// The variables that hold dates.
pub const DATE_VARIABLES: &[(&str, DateVariable)] = &[
    ("issued", DateVariable::Issued),
    ("accessed", DateVariable::Accessed),
    ("available-date", DateVariable::AvailableDate),
    ("event-date", DateVariable::EventDate),
    ("submitted", DateVariable::Submitted),
    ("original-date", DateVariable::OriginalDate),
];

/// The variables that hold texts. The last two are no entry's.
pub const STANDARD_VARIABLES: &[(&str, StandardVariable)] = &[
    ("title", StandardVariable::Title),
    ("container-title", StandardVariable::ContainerTitle),
    ("publisher", StandardVariable::Publisher),
    ("publisher-place", StandardVariable::PublisherPlace),
    ("note", StandardVariable::Note),
    ("url", StandardVariable::Url),
    ("doi", StandardVariable::Doi),
    ("citation-label", StandardVariable::CitationLabel),
    ("year-suffix", StandardVariable::YearSuffix),
];

/// The variables that hold numbers. The first three are the cite's and not its entry's.
pub const NUMBER_VARIABLES: &[(&str, NumberVariable)] = &[
    ("citation-number", NumberVariable::CitationNumber),
    ("locator", NumberVariable::Locator),
    (
        "first-reference-note-number",
        NumberVariable::FirstReferenceNoteNumber,
    ),
    ("volume", NumberVariable::Volume),
    ("issue", NumberVariable::Issue),
    ("number", NumberVariable::Number),
    ("edition", NumberVariable::Edition),
];

/// What locators count.
pub const LOCATORS: &[(&str, Locator)] = &[
    ("book", Locator::Book),
    ("chapter", Locator::Chapter),
    ("custom", Locator::Custom),
    ("figure", Locator::Figure),
    ("line", Locator::Line),
    ("note", Locator::Note),
    ("page", Locator::Page),
    ("paragraph", Locator::Paragraph),
    ("part", Locator::Part),
    ("section", Locator::Section),
    ("supplement", Locator::Supplement),
    ("verse", Locator::Verse),
    ("volume", Locator::Volume),
];

/// The terms that are named after no variable and no locator.
pub const OTHER_TERMS: &[(&str, OtherTerm)] = &[
    ("ad", OtherTerm::Ad),
    ("bc", OtherTerm::Bc),
    ("no-date", OtherTerm::NoDate),
    ("et-al", OtherTerm::EtAl),
    ("and", OtherTerm::And),
    ("ibid", OtherTerm::Ibid),
    ("open-quote", OtherTerm::OpenQuote),
    ("close-quote", OtherTerm::CloseQuote),
    ("open-inner-quote", OtherTerm::OpenInnerQuote),
    ("close-inner-quote", OtherTerm::CloseInnerQuote),
];

/// The forms of terms.
pub const TERM_FORMS: &[(&str, TermForm)] = &[
    ("long", TermForm::Long),
    ("short", TermForm::Short),
    ("verb", TermForm::Verb),
    ("verb-short", TermForm::VerbShort),
    ("symbol", TermForm::Symbol),
];

/// The positions that a condition tests.
pub const POSITIONS: &[(&str, TestPosition)] = &[
    ("first", TestPosition::First),
    ("subsequent", TestPosition::Subsequent),
    ("ibid", TestPosition::Ibid),
    ("ibid-with-locator", TestPosition::IbidWithLocator),
    ("near-note", TestPosition::NearNote),
];

/// How many of a branch's conditions have to hold.
pub const MATCHES: &[(&str, ChooseMatch)] = &[
    ("any", ChooseMatch::Any),
    ("all", ChooseMatch::All),
    ("none", ChooseMatch::None),
];

/// What a cite is written for.
pub const PURPOSES: &[(&str, CitePurpose)] = &[
    ("author", CitePurpose::Author),
    ("year", CitePurpose::Year),
    ("full", CitePurpose::Full),
    ("prose", CitePurpose::Prose),
];

/// Where a caller's own words stand around a cite.
pub const APARTS: &[(&str, Apart)] = &[("before", Apart::Before), ("both", Apart::Both)];

/// Each table has the rows that its definition lists.
pub fn rows_are_as_defined()
    ensures categories { AreRowsOf tables.categories CATEGORIES.now }
    ensures classes { AreRowsOf tables.classes CLASSES.now }
    ensures given_name_rules { AreRowsOf tables.given_name_rules GIVEN_NAME_RULES.now }
    ensures collapses { AreRowsOf tables.collapses COLLAPSES.now }
    ensures second_field_aligns { AreRowsOf tables.second_field_aligns SECOND_FIELD_ALIGNS.now }
    ensures substitute_rules { AreRowsOf tables.substitute_rules SUBSTITUTE_RULES.now }
    ensures name_ands { AreRowsOf tables.name_ands NAME_ANDS.now }
    ensures name_forms { AreRowsOf tables.name_forms NAME_FORMS.now }
    ensures displays { AreRowsOf tables.displays DISPLAYS.now }
    ensures variants { AreRowsOf tables.font_variants FONT_VARIANTS.now }
    ensures decorations { AreRowsOf tables.text_decorations TEXT_DECORATIONS.now }
    ensures aligns { AreRowsOf tables.vertical_aligns VERTICAL_ALIGNS.now }
    ensures name_variables { AreRowsOf tables.name_variables NAME_VARIABLES.now }
    ensures date_variables { AreRowsOf tables.date_variables DATE_VARIABLES.now }
    ensures standard_variables { AreRowsOf tables.standard_variables STANDARD_VARIABLES.now }
    ensures number_variables { AreRowsOf tables.number_variables NUMBER_VARIABLES.now }
    ensures locators { AreRowsOf tables.locators LOCATORS.now }
    ensures other_terms { AreRowsOf tables.other_terms OTHER_TERMS.now }
    ensures term_forms { AreRowsOf tables.term_forms TERM_FORMS.now }
    ensures positions { AreRowsOf tables.positions POSITIONS.now }
    ensures matches { AreRowsOf tables.matches MATCHES.now }
    ensures purposes { AreRowsOf tables.purposes PURPOSES.now }
    ensures aparts { AreRowsOf tables.aparts APARTS.now }
{}

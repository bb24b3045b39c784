//! How CSL names the values of attributes.
use style_file::choose::{CitePosition, Match};
use style_file::date::{DateForm, DateParts, DayForm, MonthForm, YearForm};
use style_file::element::{NumberForm, VariableForm};
use style_file::formatting::{
    Display, FontStyle, FontVariant, FontWeight, TextCase, TextDecoration, VerticalAlign,
};
use style_file::info::{CitationFormat, Field, LinkRelation};
use style_file::names::{
    DelimiterPrecedes, EtAlTerm, LabelPlural, NameAnd, NameAsSortOrder, NameForm,
};
use style_file::sections::{
    Collapse, GivenNameRule, SecondFieldAlign, SortDirection, SubstituteRule,
};
use style_file::style::{PageRangeFormat, ParticleDemotion, StyleClass};

pub const FONT_STYLES: &[(&str, FontStyle)] = &[
    ("normal", FontStyle::Normal),
    ("italic", FontStyle::Italic),
    ("oblique", FontStyle::Oblique),
];

pub const FONT_VARIANTS: &[(&str, FontVariant)] = &[
    ("normal", FontVariant::Normal),
    ("small-caps", FontVariant::SmallCaps),
];

pub const FONT_WEIGHTS: &[(&str, FontWeight)] = &[
    ("normal", FontWeight::Normal),
    ("bold", FontWeight::Bold),
    ("light", FontWeight::Light),
];

pub const TEXT_DECORATIONS: &[(&str, TextDecoration)] = &[
    ("none", TextDecoration::None),
    ("underline", TextDecoration::Underline),
];

pub const VERTICAL_ALIGNS: &[(&str, VerticalAlign)] = &[
    ("baseline", VerticalAlign::Baseline),
    ("sup", VerticalAlign::Superscript),
    ("sub", VerticalAlign::Subscript),
];

pub const DISPLAYS: &[(&str, Display)] = &[
    ("block", Display::Block),
    ("left-margin", Display::LeftMargin),
    ("right-inline", Display::RightInline),
    ("indent", Display::Indent),
];

pub const TEXT_CASES: &[(&str, TextCase)] = &[
    ("lowercase", TextCase::Lowercase),
    ("uppercase", TextCase::Uppercase),
    ("capitalize-first", TextCase::CapitalizeFirst),
    ("capitalize-all", TextCase::CapitalizeAll),
    ("sentence", TextCase::Sentence),
    ("title", TextCase::Title),
];

pub const VARIABLE_FORMS: &[(&str, VariableForm)] = &[
    ("long", VariableForm::Long),
    ("short", VariableForm::Short),
];

pub const NUMBER_FORMS: &[(&str, NumberForm)] = &[
    ("numeric", NumberForm::Numeric),
    ("ordinal", NumberForm::Ordinal),
    ("long-ordinal", NumberForm::LongOrdinal),
    ("roman", NumberForm::Roman),
];

pub const LABEL_PLURALS: &[(&str, LabelPlural)] = &[
    ("contextual", LabelPlural::Contextual),
    ("always", LabelPlural::Always),
    ("never", LabelPlural::Never),
];

pub const DATE_FORMS: &[(&str, DateForm)] = &[
    ("text", DateForm::Text),
    ("numeric", DateForm::Numeric),
];

pub const DATE_PARTS: &[(&str, DateParts)] = &[
    ("year-month-day", DateParts::YearMonthDay),
    ("year-month", DateParts::YearMonth),
    ("year", DateParts::Year),
];

pub const DAY_FORMS: &[(&str, DayForm)] = &[
    ("numeric", DayForm::Numeric),
    ("numeric-leading-zeros", DayForm::NumericLeadingZeros),
    ("ordinal", DayForm::Ordinal),
];

pub const MONTH_FORMS: &[(&str, MonthForm)] = &[
    ("long", MonthForm::Long),
    ("short", MonthForm::Short),
    ("numeric", MonthForm::Numeric),
    ("numeric-leading-zeros", MonthForm::NumericLeadingZeros),
];

pub const YEAR_FORMS: &[(&str, YearForm)] = &[("long", YearForm::Long), ("short", YearForm::Short)];

pub const NAME_ANDS: &[(&str, NameAnd)] = &[("text", NameAnd::Text), ("symbol", NameAnd::Symbol)];

pub const DELIMITER_PRECEDES: &[(&str, DelimiterPrecedes)] = &[
    ("contextual", DelimiterPrecedes::Contextual),
    ("after-inverted-name", DelimiterPrecedes::AfterInvertedName),
    ("always", DelimiterPrecedes::Always),
    ("never", DelimiterPrecedes::Never),
];

pub const NAME_FORMS: &[(&str, NameForm)] = &[
    ("long", NameForm::Long),
    ("short", NameForm::Short),
    ("count", NameForm::Count),
];

pub const NAME_ORDERS: &[(&str, NameAsSortOrder)] = &[
    ("first", NameAsSortOrder::First),
    ("all", NameAsSortOrder::All),
];

pub const ET_AL_TERMS: &[(&str, EtAlTerm)] = &[
    ("et-al", EtAlTerm::EtAl),
    ("and others", EtAlTerm::AndOthers),
];

pub const MATCHES: &[(&str, Match)] = &[
    ("all", Match::All),
    ("any", Match::Any),
    ("none", Match::None),
];

pub const POSITIONS: &[(&str, CitePosition)] = &[
    ("first", CitePosition::First),
    ("subsequent", CitePosition::Subsequent),
    ("ibid", CitePosition::Ibid),
    ("ibid-with-locator", CitePosition::IbidWithLocator),
    ("near-note", CitePosition::NearNote),
    ("far-note", CitePosition::FarNote),
];

pub const SORT_DIRECTIONS: &[(&str, SortDirection)] = &[
    ("ascending", SortDirection::Ascending),
    ("descending", SortDirection::Descending),
];

pub const COLLAPSES: &[(&str, Collapse)] = &[
    ("citation-number", Collapse::CitationNumber),
    ("year", Collapse::Year),
    ("year-suffix", Collapse::YearSuffix),
    ("year-suffix-ranged", Collapse::YearSuffixRanged),
];

pub const GIVEN_NAME_RULES: &[(&str, GivenNameRule)] = &[
    ("all-names", GivenNameRule::AllNames),
    (
        "all-names-with-initials",
        GivenNameRule::AllNamesWithInitials,
    ),
    ("primary-name", GivenNameRule::PrimaryName),
    (
        "primary-name-with-initials",
        GivenNameRule::PrimaryNameWithInitials,
    ),
    ("by-cite", GivenNameRule::ByCite),
];

pub const SECOND_FIELD_ALIGNS: &[(&str, SecondFieldAlign)] = &[
    ("flush", SecondFieldAlign::Flush),
    ("margin", SecondFieldAlign::Margin),
];

pub const SUBSTITUTE_RULES: &[(&str, SubstituteRule)] = &[
    ("complete-all", SubstituteRule::CompleteAll),
    ("complete-each", SubstituteRule::CompleteEach),
    ("partial-each", SubstituteRule::PartialEach),
    ("partial-first", SubstituteRule::PartialFirst),
];

pub const CLASSES: &[(&str, StyleClass)] = &[
    ("in-text", StyleClass::InText),
    ("note", StyleClass::Note),
];

pub const PARTICLE_DEMOTIONS: &[(&str, ParticleDemotion)] = &[
    ("never", ParticleDemotion::Never),
    ("sort-only", ParticleDemotion::SortOnly),
    ("display-and-sort", ParticleDemotion::DisplayAndSort),
];

pub const PAGE_RANGE_FORMATS: &[(&str, PageRangeFormat)] = &[
    ("chicago", PageRangeFormat::ChicagoFifteen),
    ("chicago-15", PageRangeFormat::ChicagoFifteen),
    ("chicago-16", PageRangeFormat::ChicagoSixteen),
    ("expanded", PageRangeFormat::Expanded),
    ("minimal", PageRangeFormat::Minimal),
    ("minimal-two", PageRangeFormat::MinimalTwo),
];

pub const LINK_RELATIONS: &[(&str, LinkRelation)] = &[
    ("self", LinkRelation::Itself),
    ("template", LinkRelation::Template),
    ("documentation", LinkRelation::Documentation),
    ("independent-parent", LinkRelation::IndependentParent),
];

pub const CITATION_FORMATS: &[(&str, CitationFormat)] = &[
    ("author", CitationFormat::Author),
    ("author-date", CitationFormat::AuthorDate),
    ("label", CitationFormat::Label),
    ("note", CitationFormat::Note),
    ("numeric", CitationFormat::Numeric),
];

pub const FIELDS: &[(&str, Field)] = &[
    ("anthropology", Field::Anthropology),
    ("astronomy", Field::Astronomy),
    ("biology", Field::Biology),
    ("botany", Field::Botany),
    ("chemistry", Field::Chemistry),
    ("communications", Field::Communications),
    ("engineering", Field::Engineering),
    ("generic-base", Field::GenericBase),
    ("geography", Field::Geography),
    ("geology", Field::Geology),
    ("history", Field::History),
    ("humanities", Field::Humanities),
    ("law", Field::Law),
    ("linguistics", Field::Linguistics),
    ("literature", Field::Literature),
    ("math", Field::Math),
    ("medicine", Field::Medicine),
    ("philosophy", Field::Philosophy),
    ("physics", Field::Physics),
    ("political_science", Field::PoliticalScience),
    ("psychology", Field::Psychology),
    ("science", Field::Science),
    ("social_science", Field::SocialScience),
    ("sociology", Field::Sociology),
    ("theology", Field::Theology),
    ("zoology", Field::Zoology),
];

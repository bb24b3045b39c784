//! An independent style as a value (CSL 1.0.2, independent styles).
use crate::element::{CslMacro, InheritableNameOptions, LayoutRenderingElement};
use crate::locale::{Locale, LocaleCode};
use std::num::NonZeroI16;
use value_sources::formatting::StyleFormatting;

/// A style: how cites and bibliography items are written.
#[derive(PartialEq, Eq, Drop)]
pub struct IndependentStyle {
    pub info: StyleInfo,
    pub settings: StyleSettings,
    /// The locale where a request names none; `en-US` where this is absent too.
    pub default_locale: Option<LocaleCode>,
    /// The style's own terms, asked before those of locale files.
    pub locale: Vec<Locale>,
    pub macros: Vec<CslMacro>,
    pub citation: Citation,
    /// Some styles have no bibliography.
    pub bibliography: Option<Bibliography>,
}

/// What a style says of itself.
#[derive(PartialEq, Eq, Drop)]
pub struct StyleInfo {
    pub category: Vec<StyleCategory>,
}

/// A category of a style.
#[derive(Clone, Copy, PartialEq, Eq)]
pub enum StyleCategory {
    CitationFormat { format: CitationFormat },
}

/// The form of a style's cites.
#[derive(Clone, Copy, PartialEq, Eq)]
pub enum CitationFormat {
    AuthorDate,
    Author,
    Numeric,
    Label,
    Note,
}

/// What holds for all of a style.
#[derive(PartialEq, Eq, Drop)]
pub struct StyleSettings {
    pub class: StyleClass,
    /// The name options under those of the citation or the bibliography.
    pub options: InheritableNameOptions,
}

/// Where a style's cites stand.
#[derive(Clone, Copy, PartialEq, Eq)]
pub enum StyleClass {
    InText,
    /// In notes, which have numbers.
    Note,
}

/// How cites are written, disambiguated and gathered (CSL 1.0.2, citation).
#[derive(PartialEq, Eq, Drop)]
pub struct Citation {
    pub layout: Layout,
    pub disambiguate_add_givenname: bool,
    pub givenname_disambiguation_rule: DisambiguationRule,
    pub disambiguate_add_names: bool,
    pub disambiguate_add_year_suffix: bool,
    /// What stands between cites with the same names; its presence asks for cite grouping.
    pub cite_group_delimiter: Option<String>,
    pub year_suffix_delimiter: Option<String>,
    pub after_collapse_delimiter: Option<String>,
    pub collapse: Option<Collapse>,
    /// How many requests back an earlier note is still near.
    pub near_note_distance: usize,
    pub name_options: InheritableNameOptions,
}

/// Which names are made fuller to disambiguate cites (CSL 1.0.2, disambiguation).
#[derive(Clone, Copy, PartialEq, Eq)]
pub enum DisambiguationRule {
    AllNames,
    AllNamesWithInitials,
    PrimaryName,
    PrimaryNameWithInitials,
    ByCite,
}

/// How neighbouring cites collapse (CSL 1.0.2, cite collapsing).
#[derive(Clone, Copy, PartialEq, Eq)]
pub enum Collapse {
    CitationNumber,
    Year,
    YearSuffix,
    YearSuffixRanged,
}

/// How the bibliography is written (CSL 1.0.2, bibliography).
#[derive(PartialEq, Eq, Drop)]
pub struct Bibliography {
    pub layout: Layout,
    pub hanging_indent: bool,
    /// Where it is set, an item's first field is handed back apart.
    pub second_field_align: Option<SecondFieldAlign>,
    /// The space between lines, as a multiple of a single line.
    pub line_spacing: NonZeroI16,
    /// The space between items, as a multiple of a line's height.
    pub entry_spacing: i16,
    /// What stands in place of names that are those of the item before.
    pub subsequent_author_substitute: Option<String>,
    pub subsequent_author_substitute_rule: SubsequentAuthorSubstituteRule,
    pub name_options: InheritableNameOptions,
}

/// Where the second field of an item is aligned.
#[derive(Clone, Copy, PartialEq, Eq)]
pub enum SecondFieldAlign {
    Flush,
    Margin,
}

/// Which repeated names are substituted (CSL 1.0.2, reference grouping).
#[derive(Clone, Copy, PartialEq, Eq)]
pub enum SubsequentAuthorSubstituteRule {
    CompleteAll,
    CompleteEach,
    PartialEach,
    PartialFirst,
}

/// The elements of a citation or a bibliography item, and what stands around and between them. A
/// bibliography's delimiter is looked at by nothing.
#[derive(PartialEq, Eq, Drop)]
pub struct Layout {
    pub elements: Vec<LayoutRenderingElement>,
    pub formatting: StyleFormatting,
    pub prefix: Option<String>,
    pub suffix: Option<String>,
    pub delimiter: Option<String>,
}

//! The citation and the bibliography (CSL 1.0.2, "Citation", "Bibliography", "Sorting" and their
//! options).
use crate::element::{MacroIndex, RenderingElement};
use crate::formatting::{Affixes, Formatting};
use crate::names::InheritedNameOptions;
use crate::variable::Variable;

/// What a key sorts by.
#[derive(Clone, Copy, PartialEq, Eq)]
pub enum SortBy {
    Variable(Variable),
    Macro(MacroIndex),
}

/// The value of a key's `sort`.
#[derive(Clone, Copy, PartialEq, Eq)]
pub enum SortDirection {
    Ascending,
    Descending,
}

/// An element `key`. The options of names stand in place of `et-al-min`, `et-al-subsequent-min`,
/// `et-al-use-first`, `et-al-subsequent-use-first` and `et-al-use-last` in its macro.
#[derive(Clone, Copy, PartialEq, Eq)]
pub struct SortKey {
    pub by: SortBy,
    pub direction: SortDirection,
    pub names_min: Option<u32>,
    pub names_use_first: Option<u32>,
    pub names_use_last: Option<bool>,
}

/// An element `layout`.
#[derive(Drop)]
pub struct Layout {
    pub elements: Vec<RenderingElement>,
    /// What stands between the cites of a citation. A bibliography has none.
    pub delimiter: String,
    pub affixes: Affixes,
    pub formatting: Formatting,
    /// Where its start tag begins in the file, in bytes from the start of its text.
    pub offset: usize,
}

/// The value of `collapse`.
#[derive(Clone, Copy, PartialEq, Eq)]
pub enum Collapse {
    CitationNumber,
    Year,
    YearSuffix,
    YearSuffixRanged,
}

/// The value of `givenname-disambiguation-rule`: which names given names are added to.
#[derive(Clone, Copy, PartialEq, Eq)]
pub enum GivenNameRule {
    AllNames,
    AllNamesWithInitials,
    PrimaryName,
    PrimaryNameWithInitials,
    ByCite,
}

/// The options of an element `citation`.
#[derive(Drop)]
pub struct CitationOptions {
    pub disambiguate_add_names: bool,
    pub disambiguate_add_given_name: bool,
    pub given_name_rule: GivenNameRule,
    pub disambiguate_add_year_suffix: bool,
    /// What stands between the cites of a group. Where it stands, cites are grouped.
    pub cite_group_delimiter: Option<String>,
    pub collapse: Option<Collapse>,
    /// What stands between year suffixes; absent, it is the layout's delimiter.
    pub year_suffix_delimiter: Option<String>,
    /// What follows collapsed cites; absent, it is the layout's delimiter.
    pub after_collapse_delimiter: Option<String>,
    /// How many notes behind an earlier one a cite is near at most.
    pub near_note_distance: u32,
}

/// An element `citation`.
#[derive(Drop)]
pub struct Citation {
    pub options: CitationOptions,
    pub names: InheritedNameOptions,
    /// The keys, the first first; none where cites stay in their order.
    pub sort: Vec<SortKey>,
    pub layout: Layout,
}

/// The value of `second-field-align`.
#[derive(Clone, Copy, PartialEq, Eq)]
pub enum SecondFieldAlign {
    Flush,
    Margin,
}

/// The value of `subsequent-author-substitute-rule`: which repeated names are replaced.
#[derive(Clone, Copy, PartialEq, Eq)]
pub enum SubstituteRule {
    CompleteAll,
    CompleteEach,
    PartialEach,
    PartialFirst,
}

/// The options of an element `bibliography`.
#[derive(Drop)]
pub struct BibliographyOptions {
    pub hanging_indent: bool,
    pub second_field_align: Option<SecondFieldAlign>,
    /// The distance of lines, as a multiple of the usual one; at least 1.
    pub line_spacing: u32,
    /// The distance of items, as a multiple of a line's.
    pub entry_spacing: u32,
    /// What replaces names that repeat those of the item before; absent, none are replaced.
    pub subsequent_author_substitute: Option<String>,
    pub substitute_rule: SubstituteRule,
}

/// An element `bibliography`.
#[derive(Drop)]
pub struct Bibliography {
    pub options: BibliographyOptions,
    pub names: InheritedNameOptions,
    /// The keys, the first first; none where items stand in the order of their first cites.
    pub sort: Vec<SortKey>,
    pub layout: Layout,
}

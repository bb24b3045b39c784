//! Styles (CSL 1.0.2, "Styles", "Macro" and "Global Options").
use crate::element::RenderingElement;
use crate::info::Info;
use crate::locale::StyleLocale;
use crate::names::InheritedNameOptions;
use crate::sections::{Bibliography, Citation};

/// The value of `class`: where citations stand.
#[derive(Clone, Copy, PartialEq, Eq)]
pub enum StyleClass {
    InText,
    Note,
}

/// The value of `demote-non-dropping-particle`.
#[derive(Clone, Copy, PartialEq, Eq)]
pub enum ParticleDemotion {
    Never,
    SortOnly,
    DisplayAndSort,
}

/// The value of `page-range-format`. `chicago` is that of the 15th edition.
#[derive(Clone, Copy, PartialEq, Eq)]
pub enum PageRangeFormat {
    ChicagoFifteen,
    ChicagoSixteen,
    Expanded,
    Minimal,
    MinimalTwo,
}

/// The options of a whole style.
#[derive(Clone, Copy, PartialEq, Eq)]
pub struct GlobalOptions {
    pub particle_demotion: ParticleDemotion,
    pub initialize_with_hyphen: bool,
    /// Absent, page ranges stay as the item has them.
    pub page_range_format: Option<PageRangeFormat>,
}

/// An element `macro`.
#[derive(Drop)]
pub struct Macro {
    pub name: String,
    pub elements: Vec<RenderingElement>,
    /// Where its start tag begins in the file, in bytes from the start of its text.
    pub offset: usize,
}

/// A style that stands for itself.
#[derive(Drop)]
pub struct CslStyle {
    pub info: Info,
    pub class: StyleClass,
    /// The language tag of `default-locale`.
    pub default_locale: Option<String>,
    pub options: GlobalOptions,
    pub names: InheritedNameOptions,
    /// Locales that override locale files, in the order of the style.
    pub locales: Vec<StyleLocale>,
    /// The macros, each behind those that it calls.
    pub macros: Vec<Macro>,
    pub citation: Citation,
    pub bibliography: Option<Bibliography>,
}

/// A style that stands for another.
#[derive(Drop)]
pub struct DependentStyle {
    pub info: Info,
    /// The language tag of `default-locale`.
    pub default_locale: Option<String>,
    /// The identifier of the style for which this one stands: the `href` of its link to it.
    pub parent: String,
}

/// What a style file says.
#[derive(Drop)]
pub enum StyleFile {
    Independent(CslStyle),
    Dependent(DependentStyle),
}

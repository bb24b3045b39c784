//! Names (CSL 1.0.2, "Names" and "Inheritable Name Options").
use crate::element::RenderingElement;
use crate::formatting::{Affixes, Display, Formatting, TextCase};
use crate::term::TermForm;
use crate::variable::NameVariable;

/// The value of `and`: what stands before the last name.
#[derive(Clone, Copy, PartialEq, Eq)]
pub enum NameAnd {
    Text,
    Symbol,
}

/// The value of `delimiter-precedes-et-al` and `delimiter-precedes-last`.
#[derive(Clone, Copy, PartialEq, Eq)]
pub enum DelimiterPrecedes {
    Contextual,
    AfterInvertedName,
    Always,
    Never,
}

/// The value of a name's `form`.
#[derive(Clone, Copy, PartialEq, Eq)]
pub enum NameForm {
    Long,
    Short,
    Count,
}

/// The value of `name-as-sort-order`: which names begin with the family name.
#[derive(Clone, Copy, PartialEq, Eq)]
pub enum NameAsSortOrder {
    First,
    All,
}

/// The options of an element `name`. What is absent comes from `citation` or `bibliography`, then
/// from `style`, and then is CSL's default.
#[derive(Drop)]
pub struct NameOptions {
    pub and: Option<NameAnd>,
    pub delimiter: Option<String>,
    pub delimiter_precedes_et_al: Option<DelimiterPrecedes>,
    pub delimiter_precedes_last: Option<DelimiterPrecedes>,
    pub et_al_min: Option<u32>,
    pub et_al_use_first: Option<u32>,
    pub et_al_subsequent_min: Option<u32>,
    pub et_al_subsequent_use_first: Option<u32>,
    pub et_al_use_last: Option<bool>,
    pub form: Option<NameForm>,
    pub initialize: Option<bool>,
    pub initialize_with: Option<String>,
    pub name_as_sort_order: Option<NameAsSortOrder>,
    pub sort_separator: Option<String>,
}

/// The options of names that `style`, `citation` and `bibliography` hand down.
#[derive(Drop)]
pub struct InheritedNameOptions {
    /// For each `name`; `delimiter` is their `name-delimiter`, and `form` their `name-form`.
    pub name: NameOptions,
    /// For the `delimiter` of each `names`.
    pub names_delimiter: Option<String>,
}

/// How a part of a name is set, by an element `name-part`.
#[derive(Drop)]
pub struct NamePart {
    pub affixes: Affixes,
    pub formatting: Formatting,
    pub text_case: Option<TextCase>,
}

/// An element `name`.
#[derive(Drop)]
pub struct Name {
    pub options: NameOptions,
    pub given: Option<NamePart>,
    pub family: Option<NamePart>,
    pub affixes: Affixes,
    pub formatting: Formatting,
}

/// The term of an element `et-al`.
#[derive(Clone, Copy, PartialEq, Eq)]
pub enum EtAlTerm {
    EtAl,
    AndOthers,
}

/// An element `et-al`.
#[derive(Clone, Copy, PartialEq, Eq)]
pub struct EtAl {
    pub term: EtAlTerm,
    pub formatting: Formatting,
}

/// The value of a label's `plural`.
#[derive(Clone, Copy, PartialEq, Eq)]
pub enum LabelPlural {
    Contextual,
    Always,
    Never,
}

/// How a label is written.
#[derive(Drop)]
pub struct LabelOptions {
    pub form: TermForm,
    pub plural: LabelPlural,
    pub affixes: Affixes,
    pub formatting: Formatting,
    pub text_case: Option<TextCase>,
    pub strip_periods: bool,
}

/// On which side of the names their label stands.
#[derive(Clone, Copy, PartialEq, Eq)]
pub enum LabelSide {
    Before,
    Behind,
}

/// A `label` in `names`, which writes the term of their role.
#[derive(Drop)]
pub struct NamesLabel {
    pub side: LabelSide,
    pub options: LabelOptions,
}

/// An element `names`.
#[derive(Drop)]
#[cycle(rendering)]
pub struct Names {
    /// The variables in the order of the style, without those that CSL 1.0.2 lacks.
    pub variables: Vec<NameVariable>,
    pub name: Option<Name>,
    pub et_al: Option<EtAl>,
    pub label: Option<NamesLabel>,
    /// What is written in place of the names where there are none.
    pub substitute: Vec<RenderingElement>,
    /// What stands between the names of two variables; absent, it is handed down.
    pub delimiter: Option<String>,
    pub affixes: Affixes,
    pub formatting: Formatting,
    pub display: Option<Display>,
    /// Where its start tag begins in the file, in bytes from the start of its text.
    pub offset: usize,
}

//! The elements of a layout (CSL 1.0.2, rendering elements).
use value_sources::formatting::{Display, StyleFormatting};
use value_sources::taxonomy::{
    DateVariable, NameVariable, NumberVariable, StandardVariable, Term, TermForm, Variable,
};

/// What stands directly before and after an element's text.
#[derive(PartialEq, Eq, Drop)]
pub struct Affixes {
    pub prefix: Option<String>,
    pub suffix: Option<String>,
}

/// The word before the last of several names.
#[derive(Clone, Copy, PartialEq, Eq)]
pub enum NameAnd {
    /// The term `and`.
    Text,
    /// An ampersand.
    Symbol,
}

/// How much of a name is written.
#[derive(Clone, Copy, PartialEq, Eq)]
pub enum NameForm {
    Long,
    Short,
}

/// The options of names. Each is inherited where it is absent (CSL 1.0.2, inheritable
/// name options).
#[derive(PartialEq, Eq, Drop)]
pub struct InheritableNameOptions {
    /// The word before the last name; none where it is absent to the end.
    pub and: Option<NameAnd>,
    /// What stands between two names; `, ` where it is absent to the end.
    pub name_delimiter: Option<String>,
    /// What stands between the names of two variables; `, ` where it is absent to the end.
    pub names_delimiter: Option<String>,
    /// From how many names on they are abbreviated; never where it is absent to the end.
    pub et_al_min: Option<usize>,
    /// How many names are kept then; 1 where it is absent to the end, and 0 counts as 1.
    pub et_al_use_first: Option<usize>,
    /// How much of a name is written; long where it is absent to the end.
    pub name_form: Option<NameForm>,
    /// What follows each initial; given names are written out where it is absent to the end.
    pub initialize_with: Option<String>,
}

/// What a text element writes.
#[derive(PartialEq, Eq, Drop)]
pub enum TextTarget {
    Value(String),
    Standard(StandardVariable),
    /// The macro of this name; nothing where the style has none.
    Macro(String),
    /// The term in this form, in the plural where the flag is true.
    Term(Term, TermForm, bool),
}

/// A position that a condition tests (CSL 1.0.2, choose).
#[derive(Clone, Copy, PartialEq, Eq)]
pub enum TestPosition {
    First,
    Subsequent,
    Ibid,
    IbidWithLocator,
    NearNote,
}

/// A condition of a branch (CSL 1.0.2, choose).
#[derive(Clone, Copy, PartialEq, Eq)]
pub enum Condition {
    Disambiguate,
    Position(TestPosition),
    Variable(Variable),
}

/// How many of a branch's conditions have to hold.
#[derive(Clone, Copy, PartialEq, Eq)]
pub enum ChooseMatch {
    Any,
    All,
    None,
}

/// An element of a layout or a macro.
#[cycle(layout)]
#[derive(PartialEq, Eq, Drop)]
pub enum LayoutRenderingElement {
    Text {
        target: TextTarget,
        quotes: bool,
        strip_periods: bool,
        affixes: Affixes,
        formatting: StyleFormatting,
        display: Option<Display>,
    },
    Number {
        variable: NumberVariable,
        affixes: Affixes,
        formatting: StyleFormatting,
        display: Option<Display>,
    },
    Date {
        variable: DateVariable,
        affixes: Affixes,
        formatting: StyleFormatting,
        display: Option<Display>,
    },
    Names {
        variables: Vec<NameVariable>,
        /// The variables that stand in, in order, where none of `variables` has persons.
        substitute: Vec<NameVariable>,
        options: InheritableNameOptions,
        affixes: Affixes,
        formatting: StyleFormatting,
        display: Option<Display>,
    },
    Group {
        children: Vec<LayoutRenderingElement>,
        delimiter: Option<String>,
        affixes: Affixes,
        formatting: StyleFormatting,
        display: Option<Display>,
    },
    /// The children of the first branch whose test holds, else `otherwise`.
    Choose {
        branches: Vec<ChooseBranch>,
        otherwise: Vec<LayoutRenderingElement>,
    },
}

/// A branch of a choice.
#[cycle(layout)]
#[derive(PartialEq, Eq, Drop)]
pub struct ChooseBranch {
    pub conditions: Vec<Condition>,
    pub rule: ChooseMatch,
    pub children: Vec<LayoutRenderingElement>,
}

/// A macro: elements under a name. Of two macros of one name the first is meant.
#[derive(PartialEq, Eq, Drop)]
pub struct CslMacro {
    pub name: String,
    pub children: Vec<LayoutRenderingElement>,
}

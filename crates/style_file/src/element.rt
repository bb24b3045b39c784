//! The elements that write something (CSL 1.0.2, "Rendering Elements").
use crate::choose::Choose;
use crate::date::Date;
use crate::formatting::{Affixes, Display, Formatting, TextCase};
use crate::names::{LabelOptions, Names};
use crate::term::{TermForm, TermName};
use crate::variable::{NumberVariable, TextVariable};

/// A macro, by its place among the macros of its style.
#[derive(Clone, Copy, PartialEq, Eq)]
pub struct MacroIndex(pub usize);

/// The form of a variable that a text writes. Where an item lacks the short form, it is the long
/// one.
#[derive(Clone, Copy, PartialEq, Eq)]
pub enum VariableForm {
    Long,
    Short,
}

/// What an element `text` writes.
#[derive(Drop)]
pub enum TextSource {
    Variable {
        variable: TextVariable,
        form: VariableForm,
    },
    Number(NumberVariable),
    Macro(MacroIndex),
    Term {
        name: TermName,
        form: TermForm,
        plural: bool,
    },
    Value(String),
}

/// An element `text`.
#[derive(Drop)]
pub struct Text {
    pub source: TextSource,
    pub affixes: Affixes,
    pub formatting: Formatting,
    pub display: Option<Display>,
    pub text_case: Option<TextCase>,
    pub quotes: bool,
    pub strip_periods: bool,
    /// Where its start tag begins in the file, in bytes from the start of its text.
    pub offset: usize,
}

/// The value of a number's `form`.
#[derive(Clone, Copy, PartialEq, Eq)]
pub enum NumberForm {
    Numeric,
    Ordinal,
    LongOrdinal,
    Roman,
}

/// An element `number`.
#[derive(Drop)]
pub struct Number {
    pub variable: NumberVariable,
    pub form: NumberForm,
    pub affixes: Affixes,
    pub formatting: Formatting,
    pub display: Option<Display>,
    pub text_case: Option<TextCase>,
    /// Where its start tag begins in the file, in bytes from the start of its text.
    pub offset: usize,
}

/// An element `label`, which writes the term of a number variable.
#[derive(Drop)]
pub struct Label {
    pub variable: NumberVariable,
    pub options: LabelOptions,
    /// Where its start tag begins in the file, in bytes from the start of its text.
    pub offset: usize,
}

/// An element `group`.
#[derive(Drop)]
#[cycle(rendering)]
pub struct Group {
    pub elements: Vec<RenderingElement>,
    /// What stands between elements that write something.
    pub delimiter: String,
    pub affixes: Affixes,
    pub formatting: Formatting,
    pub display: Option<Display>,
    /// Where its start tag begins in the file, in bytes from the start of its text.
    pub offset: usize,
}

/// An element that writes something.
#[derive(Drop)]
#[cycle(rendering)]
pub enum RenderingElement {
    Text(Text),
    Number(Number),
    Label(Label),
    Date(Date),
    Names(Names),
    Group(Group),
    Choose(Choose),
    /// An element whose variables are all unknown to CSL 1.0.2: it is one whose variables are
    /// empty.
    UnknownVariable,
}

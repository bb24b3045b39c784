//! What goes along a picking.
ghost use Rattle.std.specs.Prelude.{◌≡◌};
ghost use Rattle.layout_picking.specs.Notes.{called_by_both, is_suppressed, with_suppressed};

use csl_base::names::NameDisambiguationProperties;
use csl_base::taxonomy::{NameVariable, Variable};
use driver_lookup::state::IdentifierUsage;

/// Which elements are written.
#[derive(Clone, Copy, PartialEq, Eq)]
pub enum Form {
    /// All of them.
    Full,
    /// Those that name this variable.
    VarOnly(Variable),
    /// All but the author's names.
    SuppressAuthor,
    /// The first date, the year suffix and the locator.
    OnlyFirstDate,
    /// The year suffix and the locator.
    OnlyYearSuffix,
}

/// Whether variables were called, and whether one of them had content.
#[derive(Clone, Copy, PartialEq, Eq)]
pub enum Called {
    None,
    Empty,
    Filled,
}

impl Called {
    // Of two parts, one after the other.
    pub fn and(self, other: Called) -> Called
        ensures { result ≡ called_by_both self other }
    {
        match (self, other) {
            (Called::Filled, _) => Called::Filled,
            (Called::Empty, Called::Filled) => Called::Filled,
            (Called::Empty, _) => Called::Empty,
            (Called::None, other) => other,
        }
    }
}

/// The name variables that later names don't write, since they stood in for others.
#[derive(Clone, Copy, PartialEq, Eq)]
pub struct Suppressed {
    pub author: bool,
    pub editor: bool,
    pub translator: bool,
}

impl Suppressed {
    pub fn contains(self, variable: NameVariable) -> bool
        ensures { result ≡ is_suppressed self variable }
    {
        match variable {
            NameVariable::Author => self.author,
            NameVariable::Editor => self.editor,
            NameVariable::Translator => self.translator,
        }
    }

    pub fn with(self, variable: NameVariable) -> Suppressed
        ensures { result ≡ with_suppressed variable self }
    {
        let mut suppressed = self;
        match variable {
            NameVariable::Author => suppressed.author = true,
            NameVariable::Editor => suppressed.editor = true,
            NameVariable::Translator => suppressed.translator = true,
        }
        suppressed
    }
}

/// What is noted along a picking, from left to right.
#[derive(Drop)]
pub struct Notes {
    /// Whether no date and no label was written yet.
    pub first_date: bool,
    pub suppressed: Suppressed,
    /// Whether a condition tested `disambiguate`.
    pub checked_disambiguate: bool,
    /// The forms of the names that were written first.
    pub first_name: Option<NameDisambiguationProperties>,
    pub usage: IdentifierUsage,
}

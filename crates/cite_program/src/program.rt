//! Programs.
use std::alloc::{AllocError, AllocFailed};
use style_file::choose::Branch;
use style_file::date::Date;
use style_file::element::{Group, Label, Number, Text};
use style_file::formatting::{Affixes, Display, Formatting};
use style_file::names::{EtAl, Name, NamesLabel};
use style_file::variable::NameVariable;

/// A step. Where it leads is a place among the steps, always behind its own.
#[derive(Clone, Copy)]
pub enum Step<'s> {
    /// A text that is no macro.
    Text(&'s Text),
    Number(&'s Number),
    Label(&'s Label),
    Date(&'s Date),
    /// The names at this place of the program's names. Where they write something, what stands in
    /// for them is left out, and the walk goes on at `end`.
    Names {
        names: usize,
        end: usize,
    },
    /// An element begins that may stand in for the names at this place among the steps.
    OpenSubstitute {
        names_at: usize,
    },
    /// It ends. Where it has written something, the walk goes on at the `end` of the names at this
    /// place among the steps.
    CloseSubstitute {
        names_at: usize,
    },
    OpenGroup(&'s Group),
    /// The elements of a macro begin, which this text calls. They are an implicit group.
    OpenMacro(&'s Text),
    /// A group or a macro ends.
    CloseGroup,
    /// A choice begins, which ends before `end`.
    Choose {
        end: usize,
    },
    /// Where the branch doesn't hold, the walk goes on at `otherwise`.
    Test {
        branch: &'s Branch,
        otherwise: usize,
    },
    /// The walk goes on at the `end` of the choice at this place among the steps.
    Leave {
        choose_at: usize,
    },
    /// A variable that is always empty.
    UnknownVariable,
}

/// An element `names` with what holds for it. One that stands in for other names and has no
/// children has those of these (CSL 1.0.2, "Substitute"). The affixes of these stand around it.
#[derive(Clone, Copy)]
pub struct NamesInUse<'s> {
    pub variables: &'s [NameVariable],
    pub name: Option<&'s Name>,
    pub et_al: Option<EtAl>,
    pub label: Option<&'s NamesLabel>,
    pub delimiter: Option<&'s str>,
    pub affixes: &'s Affixes,
    pub formatting: Formatting,
    pub display: Option<Display>,
    /// Whether it stands in for other names.
    pub is_substitute: bool,
    /// Where the start tag of its element begins in the file.
    pub offset: usize,
}

/// A program.
#[derive(Drop)]
pub struct Program<'s> {
    pub steps: Vec<Step<'s>>,
    pub names: Vec<NamesInUse<'s>>,
}

/// The most steps of a program. Macros that call others several times may make a short style long.
pub const MOST_STEPS: usize = 1_000_000;

/// Why there is no program.
#[derive(Clone, Copy, PartialEq, Eq)]
pub enum ProgramError {
    /// It would have more steps than `MOST_STEPS`.
    TooLong,
    OutOfMemory,
}

impl From<AllocError> for ProgramError {
    fn from(_error: AllocError) -> ProgramError {
        ProgramError::OutOfMemory
    }
}

impl<T: Drop> From<AllocFailed<T>> for ProgramError {
    fn from(_error: AllocFailed<T>) -> ProgramError {
        ProgramError::OutOfMemory
    }
}

impl<'s> Program<'s> {
    /// Where the walk goes on behind the names or the choice at this place among the steps.
    pub fn end_of(&self, place: usize) -> usize {
        match self.steps.get(place) {
            Some(Step::Names { end, .. }) => *end,
            Some(Step::Choose { end }) => *end,
            _ => 0,
        }
    }
}

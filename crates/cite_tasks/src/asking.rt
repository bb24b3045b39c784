//! What of its place and its number the text of a cite depends on.
use cite_program::program::{NamesInUse, Program, Step};
use style_file::choose::{CitePosition, Test};
use style_file::element::TextSource;
use style_file::names::NameOptions;
use style_file::style::CslStyle;
use style_file::variable::{NumberVariable, Variable};

/// What of the place of a cite, and of its number, its text depends on.
#[derive(Clone, Copy)]
pub struct AskedPlace {
    /// The cites of its item before it.
    pub cites: bool,
    /// The numbers of notes.
    pub notes: bool,
    /// The number of its item.
    pub number: bool,
}

impl AskedPlace {
    /// What the cites of a style depend on, whose layout has this program.
    pub fn of_style(style: &CslStyle, program: &Program<'_>) -> AskedPlace {
        let notes = program.steps.iter().any(asks_for_notes);
        AskedPlace {
            cites: notes
                || has_later_names(style, program)
                || program.steps.iter().any(asks_for_position),
            notes,
            number: reads_number(program),
        }
    }
}

/// Whether a program writes the number of an item.
pub(crate) fn reads_number(program: &Program<'_>) -> bool {
    let number = NumberVariable::CitationNumber;
    program.steps.iter().any(|step| reads(step, number))
}

fn asks_for_position(step: &Step<'_>) -> bool {
    match step {
        Step::Test { branch, .. } => {
            branch
                .tests
                .iter()
                .any(|test| matches!(test, Test::Position(_)))
        }
        _ => false,
    }
}

fn asks_for_notes(step: &Step<'_>) -> bool {
    reads(step, NumberVariable::FirstReferenceNoteNumber) || tests_nearness(step)
}

fn tests_nearness(step: &Step<'_>) -> bool {
    match step {
        Step::Test { branch, .. } => branch.tests.iter().any(|test| {
            matches!(
                test,
                Test::Position(CitePosition::NearNote | CitePosition::FarNote)
            )
        }),
        _ => false,
    }
}

/// Whether a step writes or tests a number.
fn reads(step: &Step<'_>, number: NumberVariable) -> bool {
    match step {
        Step::Test { branch, .. } => branch.tests.iter().any(|test| tests(test, number)),
        Step::Text(text) => match &text.source {
            TextSource::Number(variable) => *variable == number,
            _ => false,
        },
        Step::Number(written) => written.variable == number,
        Step::Label(label) => label.variable == number,
        _ => false,
    }
}

fn tests(test: &Test, number: NumberVariable) -> bool {
    match test {
        Test::Variable(variable) | Test::IsNumeric(variable) => {
            *variable == Variable::Number(number)
        }
        _ => false,
    }
}

/// Whether later cites of an item are cut to other names.
fn has_later_names(style: &CslStyle, program: &Program<'_>) -> bool {
    has_later_cut(&style.names.name)
        || has_later_cut(&style.citation.names.name)
        || program.names.iter().any(has_own_later_cut)
}

fn has_own_later_cut(names: &NamesInUse<'_>) -> bool {
    match names.name {
        Some(name) => has_later_cut(&name.options),
        None => false,
    }
}

fn has_later_cut(options: &NameOptions) -> bool {
    options.et_al_subsequent_min.is_some() || options.et_al_subsequent_use_first.is_some()
}

//! The programs of a style.
use crate::asking::{AskedPlace, reads_number};
use cite_program::build::program_of;
use cite_program::program::{Program, ProgramError, Step};
use cite_sorting::keys::Key;
use cite_sorting::order::keys_of;
use std::alloc::Global;
use style_file::element::TextSource;
use style_file::sections::{Bibliography, SortBy, SortDirection};
use style_file::style::CslStyle;
use style_file::variable::{NumberVariable, TextVariable, Variable};

/// The programs of the layouts and the keys of a style.
#[derive(Drop)]
pub struct Programs<'s> {
    pub citation: Program<'s>,
    pub citation_keys: Vec<Key<'s>>,
    pub bibliography: Option<BibliographyProgram<'s>>,
    /// Whether a year suffix follows the first date: no layout has a place for it (CSL 1.0.2,
    /// "Disambiguation").
    pub adds_year_suffix: bool,
    /// What of the place of a cite its text depends on.
    pub asked_place: AskedPlace,
}

/// The program of a bibliography.
#[derive(Drop)]
pub struct BibliographyProgram<'s> {
    pub section: &'s Bibliography,
    pub layout: Program<'s>,
    pub keys: Vec<Key<'s>>,
    /// Whether items stand in the descending order of their numbers.
    pub counts_down: bool,
    /// Whether the text of an item depends on its number.
    pub reads_number: bool,
}

impl<'s> Programs<'s> {
    pub fn of_style(alloc: Global, style: &'s CslStyle) -> Result<Programs<'s>, ProgramError> {
        let macros = style.macros.as_slice();
        let bibliography = match &style.bibliography {
            Some(section) => {
                let keys = keys_of(alloc, style, &section.sort)?;
                let layout = program_of(alloc, macros, &section.layout.elements)?;
                Some(BibliographyProgram {
                    section,
                    reads_number: reads_number(&layout),
                    layout,
                    counts_down: counts_down(&keys),
                    keys,
                })
            }
            None => None,
        };
        let citation = program_of(alloc, macros, &style.citation.layout.elements)?;
        let adds_year_suffix = !writes_suffix(&citation) && !lists_suffix(&bibliography);
        Ok(Programs {
            asked_place: AskedPlace::of_style(style, &citation),
            citation,
            citation_keys: keys_of(alloc, style, &style.citation.sort)?,
            bibliography,
            adds_year_suffix,
        })
    }
}

/// Whether items of the bibliography write the variable `year-suffix`.
fn lists_suffix(bibliography: &Option<BibliographyProgram<'_>>) -> bool {
    match bibliography {
        Some(bibliography) => writes_suffix(&bibliography.layout),
        None => false,
    }
}

/// Whether the first of some keys sorts by the numbers of items, the last first.
fn counts_down(keys: &[Key<'_>]) -> bool {
    match keys.first() {
        Some(key) => is_by_descending_number(key),
        None => false,
    }
}

/// Whether a key sorts by the numbers of items, the last first.
fn is_by_descending_number(key: &Key<'_>) -> bool {
    if key.key.direction != SortDirection::Descending {
        return false;
    }
    let number = NumberVariable::CitationNumber;
    match (key.key.by, &key.program) {
        (SortBy::Variable(variable), _) => variable == Variable::Number(number),
        (SortBy::Macro(_), Some(program)) => match program.steps.first() {
            Some(Step::Text(text)) => match &text.source {
                TextSource::Number(variable) => *variable == number,
                _ => false,
            },
            Some(Step::Number(first)) => first.variable == number,
            _ => false,
        },
        (SortBy::Macro(_), None) => false,
    }
}

/// Whether a program writes the variable `year-suffix`.
fn writes_suffix(program: &Program<'_>) -> bool {
    for step in &program.steps {
        if let Step::Text(text) = step {
            if let TextSource::Variable { variable, .. } = &text.source {
                if *variable == TextVariable::YearSuffix {
                    return true;
                }
            }
        }
    }
    false
}

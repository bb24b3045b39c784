//! The values of keys.
use cite_collation::alphabets::Alphabet;
use cite_collation::key::{CollationKey, SEPARATOR};
use cite_dates::sorting::sorted_date;
use cite_limits::budget::Budget;
use cite_limits::cost::Cost;
use cite_limits::error::{LimitError, StylePlace};
use cite_locale::chain::LocaleChain;
use cite_names::forms::{form_of, own_forms, written_names};
use cite_names::others::told_names;
use cite_names::parts::{may_be_inverted, parts_of};
use cite_names::rules::{HandedDown, NameRules};
use cite_pieces::piece::Piece;
use cite_pieces::pieces::Pieces;
use cite_program::program::{Program, Step};
use cite_walk::abbreviations::Abbreviations;
use cite_walk::cite::{CiteFacts, Explaining, Scene, SceneKind};
use cite_walk::labels::label_of;
use cite_walk::sorted::sorted_number;
use cite_walk::walk::write_cite;
use csl_base::names::DisambiguatedNameForm;
use reference_values::name::Name;
use std::alloc::{AllocError, Global};
use style_file::choose::Test;
use style_file::element::TextSource;
use style_file::names::{InheritedNameOptions, NameForm};
use style_file::sections::{SortBy, SortKey};
use style_file::style::CslStyle;
use style_file::variable::{NameVariable, NumberVariable, TextVariable, Variable};

/// A key of a style, with the program of its macro.
#[derive(Drop)]
pub struct Key<'s> {
    pub key: SortKey,
    pub program: Option<Program<'s>>,
}

impl Key<'_> {
    /// Whether its value may depend on the locator of a cite.
    pub fn reads_locator(&self) -> bool {
        match (self.key.by, &self.program) {
            (SortBy::Variable(variable), _) => is_locator(variable),
            (SortBy::Macro(_), Some(program)) => program.steps.iter().any(step_reads_locator),
            (SortBy::Macro(_), None) => false,
        }
    }
}

fn is_locator(variable: Variable) -> bool {
    variable == Variable::Number(NumberVariable::Locator)
}

fn step_reads_locator(step: &Step<'_>) -> bool {
    match step {
        Step::Text(text) => match &text.source {
            TextSource::Number(variable) => *variable == NumberVariable::Locator,
            _ => false,
        },
        Step::Number(number) => number.variable == NumberVariable::Locator,
        Step::Label(label) => label.variable == NumberVariable::Locator,
        Step::Test { branch, .. } => branch.tests.iter().any(test_reads_locator),
        _ => false,
    }
}

fn test_reads_locator(test: &Test) -> bool {
    match test {
        Test::Locator(_) => true,
        Test::Variable(variable) | Test::IsNumeric(variable) => is_locator(*variable),
        _ => false,
    }
}

/// What the values of keys depend on, beside the items.
#[derive(Clone, Copy)]
pub struct KeyScene<'s> {
    pub style: &'s CslStyle,
    pub locale: &'s LocaleChain<'s>,
    /// The letters of the language of the locale, in order.
    pub alphabet: Alphabet,
    /// The options of names of the citation or the bibliography.
    pub names: &'s InheritedNameOptions,
    /// Short forms of texts, where the document brings some.
    pub abbreviations: Option<&'s Abbreviations>,
    /// What the document may take.
    pub budget: &'s Budget,
    /// The part of the style whose keys they are.
    pub place: StylePlace,
}

impl<'s> KeyScene<'s> {
    /// The value of a key for a cite; `None` where it is empty.
    ///
    /// # Errors
    ///
    /// `Exceeded` where the keys take more than the budget has; `OutOfMemory`.
    pub fn value(
        &self,
        alloc: Global,
        key: &'s Key<'s>,
        cite: CiteFacts<'_>,
    ) -> Result<Option<CollationKey>, LimitError> {
        let text = match (key.key.by, &key.program) {
            (SortBy::Variable(variable), _) => {
                self.budget.spend(cite.price(variable), self.place)?;
                self.variable_text(alloc, key.key, variable, cite)?
            }
            (SortBy::Macro(_), Some(program)) => self.macro_text(alloc, key.key, program, cite)?,
            (SortBy::Macro(_), None) => return Ok(None),
        };
        if text.as_str().trim().is_empty() {
            return Ok(None);
        }
        Ok(Some(CollationKey::of_text(alloc, text.as_str(), self.alphabet)?))
    }

    /// What a macro writes.
    fn macro_text(
        &self,
        alloc: Global,
        key: SortKey,
        program: &'s Program<'s>,
        cite: CiteFacts<'_>,
    ) -> Result<String, LimitError> {
        let scene = Scene {
            style: self.style,
            locale: self.locale,
            program,
            names: self.names,
            kind: SceneKind::Key(key),
            explaining: Explaining::Nothing,
            adds_year_suffix: false,
            abbreviations: self.abbreviations,
            budget: self.budget,
        };
        let written = write_cite(alloc, scene, cite)?;
        Ok(all_texts(alloc, &written.pieces)?)
    }

    fn variable_text(
        &self,
        alloc: Global,
        key: SortKey,
        variable: Variable,
        cite: CiteFacts<'_>,
    ) -> Result<String, LimitError> {
        match variable {
            Variable::Name(variable) => self.names_text(alloc, key, variable, cite),
            _ => Ok(plain_text(alloc, variable, cite)?),
        }
    }

    /// Names in sort order, in full.
    fn names_text(
        &self,
        alloc: Global,
        key: SortKey,
        variable: NameVariable,
        cite: CiteFacts<'_>,
    ) -> Result<String, LimitError> {
        let Some(names) = cite.reference.names(variable) else {
            return Ok(String::new(alloc));
        };
        let rules = NameRules {
            form: NameForm::Long,
            initialize_with: None,
            ..NameRules::of_name(
                None,
                HandedDown {
                    section: &self.names.name,
                    style: &self.style.names.name,
                    options: self.style.options,
                    sort_key: Some(key),
                    is_subsequent: false,
                },
            )
        };
        let separators = rules.sort_separator.len().saturating_mul(names.len());
        self.budget.spend(Cost::of_bytes(separators), self.place)?;
        let forms = own_forms(alloc, &rules, names.len())?;
        let mut text = String::new(alloc);
        let told = told_names(names);
        for name in told.iter().take(written_names(forms.as_slice())) {
            push_name(alloc, &mut text, &rules, name, form_of(&rules))?;
        }
        Ok(text)
    }
}

/// The value of a variable that isn't one of names.
fn plain_text(
    alloc: Global,
    variable: Variable,
    cite: CiteFacts<'_>,
) -> Result<String, AllocError> {
    match variable {
        Variable::Text(TextVariable::CitationLabel) => {
            label_of(alloc, cite.reference)?.plain(alloc)
        }
        Variable::Text(variable) => match cite.text(variable) {
            Some(text) => text.plain(alloc),
            None => Ok(String::new(alloc)),
        },
        Variable::Number(variable) => match cite.number(alloc, variable)? {
            Some(value) => {
                let plain = value.text().plain(alloc)?;
                sorted_number(alloc, plain.as_str())
            }
            None => Ok(String::new(alloc)),
        },
        Variable::Date(variable) => match cite.reference.date(variable) {
            Some(date) => sorted_date(alloc, date, 3),
            None => Ok(String::new(alloc)),
        },
        Variable::Name(_) => Ok(String::new(alloc)),
    }
}

/// The texts of a stream alone: keys have no quotation marks.
fn all_texts(alloc: Global, pieces: &Pieces) -> Result<String, AllocError> {
    let mut texts = String::new(alloc);
    for piece in pieces.as_slice() {
        if let Piece::Text(text) = piece {
            texts.push_str(text.as_str())?;
        }
    }
    Ok(texts)
}

/// Adds a name, whose parts are compared one by one.
fn push_name(
    alloc: Global,
    text: &mut String,
    rules: &NameRules<'_>,
    name: &Name,
    form: DisambiguatedNameForm,
) -> Result<(), AllocError> {
    for part in parts_of(alloc, rules, name, form, may_be_inverted(name))? {
        text.push_str(part.text.as_str())?;
    }
    text.push(SEPARATOR)
}

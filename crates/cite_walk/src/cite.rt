//! What is known of a cite, and what comes of it.
use crate::abbreviations::Abbreviations;
use cite_limits::budget::Budget;
use cite_limits::cost::Cost;
use cite_locale::chain::LocaleChain;
use cite_pieces::piece::Mark;
use cite_pieces::pieces::Pieces;
use cite_program::program::Program;
use cite_trees::trees::NamedPersons;
use csl_base::names::DisambiguatedNameForm;
use driver_lookup::state::IdentifierUsage;
use reference_values::reference::Reference;
use reference_values::rich_text::RichText;
use style_file::locator::LocatorType;
use style_file::names::InheritedNameOptions;
use style_file::sections::SortKey;
use style_file::style::CslStyle;

/// A layout, or a macro that is written for a key of sorting.
#[derive(Clone, Copy)]
pub struct Scene<'s> {
    pub style: &'s CslStyle,
    pub locale: &'s LocaleChain<'s>,
    pub program: &'s Program<'s>,
    /// The options of names of the citation or the bibliography.
    pub names: &'s InheritedNameOptions,
    pub kind: SceneKind,
    pub explaining: Explaining,
    /// Whether a year suffix follows the first date.
    pub adds_year_suffix: bool,
    /// Short forms of texts, where the document brings some.
    pub abbreviations: Option<&'s Abbreviations>,
    /// What its document may take.
    pub budget: &'s Budget,
}

/// What is written.
#[derive(Clone, Copy)]
pub enum SceneKind {
    Cite,
    Item,
    /// The value of a key by which items are sorted.
    Key(SortKey),
}

/// What a stream says of the elements of the style that wrote it.
#[derive(Clone, Copy, PartialEq, Eq)]
pub enum Explaining {
    Nothing,
    /// What a step of the program wrote is marked by the step, as `step_mark` gives it.
    Steps,
}

/// What is marked that the step at this place of a program wrote. It is never the mark of terms.
pub fn step_mark(place: usize) -> Mark {
    Mark::Other(place.saturating_add(1))
}

/// The place of the step that this mark is of, if it is one of a step.
pub fn marked_step(mark: Mark) -> Option<usize> {
    match mark {
        Mark::Other(number) => number.checked_sub(1),
        _ => None,
    }
}

/// How a cite repeats the one before it.
#[derive(Clone, Copy, PartialEq, Eq, PartialOrd, Ord)]
pub enum Repetition {
    Ibid,
    IbidWithLocator,
}

/// A locator.
#[derive(Drop)]
pub struct CiteLocator {
    pub kind: LocatorType,
    pub text: RichText,
}

/// What is known of a cite.
#[derive(Clone, Copy)]
pub struct CiteFacts<'c> {
    pub reference: &'c Reference,
    pub locator: Option<&'c CiteLocator>,
    /// The number of its item, as it is printed.
    pub number: usize,
    /// Whether no cite before cites its item.
    pub is_first: bool,
    pub is_near_note: bool,
    pub repetition: Option<Repetition>,
    /// The number of the first note that cites its item.
    pub first_note_number: Option<usize>,
    /// Whether the condition `disambiguate` holds.
    pub disambiguates: bool,
    /// The number of the suffix of its year, from 0.
    pub year_suffix: Option<usize>,
    /// How far its first names are to be written at least.
    pub name_forms: &'c [DisambiguatedNameForm],
    /// Whether its first names are left out.
    pub leaves_out_names: bool,
    /// Whether it is cut to the suffix of its year and its locator.
    pub is_cut_to_suffix: bool,
}

/// What comes of a cite.
#[derive(Drop)]
pub struct WrittenCite {
    pub pieces: Pieces,
    /// How many of the pieces are those of the first element of the layout that has text.
    pub first_pieces: usize,
    /// The persons of its marks of names.
    pub names: Vec<NamedPersons>,
    /// The forms of the names of its first names element, if it has one.
    pub first_forms: Option<Vec<DisambiguatedNameForm>>,
    /// Whether a condition `disambiguate` was tested.
    pub has_tested_disambiguate: bool,
    pub usage: IdentifierUsage,
    /// What it took of the budget.
    pub cost: Cost,
}

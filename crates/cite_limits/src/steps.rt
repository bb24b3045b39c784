//! What the steps of a program cost, whatever the item has.
use crate::budget::parts_length;
use crate::cost::Cost;
use cite_names::rules::{HandedDown, NameRules};
use cite_program::program::{NamesInUse, Program, Step};
use style_file::date::{Date, DateFormat};
use style_file::element::{Text, TextSource};
use style_file::formatting::Affixes;
use style_file::names::NamePart;

/// How many steps a name takes, and a variable that may have some.
pub const STEPS_OF_NAME: usize = 4;

/// How many initials a name has where nothing is known of it.
const USUAL_INITIALS: usize = 2;

/// How long a text of a style usually is that may have markup.
const USUAL_VALUE: usize = 64;

/// How long what stands between parts of a name, or after an initial, usually is.
const USUAL_SEPARATOR: usize = 8;

/// How many bytes of a text that is longer than usual may be markup that takes a step.
const BYTES_OF_MARKUP: usize = 4;

/// How many words of a locale a date has at most.
const WORDS_OF_DATE: usize = 4;

/// How many words of a locale the names of a variable have at most: `and`, `et-al` and a label.
const WORDS_OF_NAMES: usize = 3;

/// What the costs of steps depend on.
#[derive(Clone, Copy)]
pub struct Prices<'s> {
    /// What is handed down to names.
    pub down: HandedDown<'s>,
    /// What stands between the names of two variables where the style says nothing there.
    pub names_delimiter: &'s str,
    /// What finding and writing words of a locale takes at most.
    pub words: Cost,
}

/// The cost of a step of a program, beside that of what the item has.
pub fn step_cost(program: &Program<'_>, step: &Step<'_>, prices: &Prices<'_>) -> Cost {
    let words = prices.words;
    match step {
        Step::Text(text) => text_cost(text, words),
        Step::Number(number) => element_cost(&number.affixes, words),
        Step::Label(label) => element_cost(&label.options.affixes, words),
        Step::Date(date) => date_cost(date, words),
        Step::Names { names, .. } => match program.names.get(*names) {
            Some(names) => names_cost(names, prices),
            None => Cost::STEP,
        },
        Step::OpenSubstitute { names_at } => substitute_cost(program, *names_at),
        Step::OpenGroup(group) => element_cost(&group.affixes, Cost::NOTHING),
        Step::OpenMacro(text) => text_cost(text, words),
        Step::Test { branch, .. } => Cost::of_steps(branch.tests.len().saturating_add(1)),
        Step::CloseSubstitute { .. }
        | Step::CloseGroup
        | Step::Choose { .. }
        | Step::Leave { .. }
        | Step::UnknownVariable => Cost::STEP,
    }
}

/// The cost of an element with these affixes around something of this cost.
fn element_cost(affixes: &Affixes, inside: Cost) -> Cost {
    Cost {
        steps: 1,
        bytes: affixes_length(affixes),
    }
    .plus(inside)
}

fn affixes_length(affixes: &Affixes) -> usize {
    affixes.prefix.len().saturating_add(affixes.suffix.len())
}

/// The cost of a text, which has words of a locale in its place or around it.
fn text_cost(text: &Text, words: Cost) -> Cost {
    let inside = match &text.source {
        TextSource::Term { .. } => words,
        TextSource::Value(value) => Cost {
            steps: markup_steps(value.len(), USUAL_VALUE),
            bytes: value.len(),
        },
        TextSource::Variable { .. } | TextSource::Number(_) | TextSource::Macro(_) => Cost::NOTHING,
    };
    let quotes = if text.quotes {
        words.times(2)
    } else {
        Cost::NOTHING
    };
    element_cost(&text.affixes, inside.plus(quotes))
}

/// How many steps the markup of a text takes at most that is longer than usual.
fn markup_steps(length: usize, usual: usize) -> usize {
    length.saturating_sub(usual) / BYTES_OF_MARKUP
}

/// The cost of a date, which may be a range of two.
fn date_cost(date: &Date, words: Cost) -> Cost {
    let (parts, delimiter) = match &date.format {
        DateFormat::Localized { settings, .. } => (settings, ""),
        DateFormat::Own { parts, delimiter } => (parts, delimiter.as_str()),
    };
    let between = delimiter.len().saturating_mul(parts.len());
    let around = parts_length(parts)
        .saturating_add(between)
        .saturating_mul(2);
    let inside = Cost {
        steps: parts.len(),
        bytes: around,
    };
    element_cost(&date.affixes, inside.plus(words.times(WORDS_OF_DATE)))
}

/// The cost of names, where each variable has one.
fn names_cost(names: &NamesInUse<'_>, prices: &Prices<'_>) -> Cost {
    let rules = NameRules::of_name(names.name, prices.down);
    block_cost(names, prices)
        .plus(name_cost(names, &rules, USUAL_INITIALS))
        .times(names.variables.len())
        .plus(element_cost(names.affixes, Cost::NOTHING))
}

/// The cost of what stands around the names of a variable.
pub fn block_cost(names: &NamesInUse<'_>, prices: &Prices<'_>) -> Cost {
    let label = match names.label {
        Some(label) => affixes_length(&label.options.affixes),
        None => 0,
    };
    let delimiter = names.delimiter.unwrap_or(prices.names_delimiter);
    let around = Cost::of_bytes(label.saturating_add(delimiter.len()));
    prices.words.times(WORDS_OF_NAMES).plus(around)
}

/// The cost of a name with so many initials, beside that of its parts.
pub fn name_cost(names: &NamesInUse<'_>, rules: &NameRules<'_>, initials: usize) -> Cost {
    let own = match names.name {
        Some(name) => affixes_length(&name.affixes),
        None => 0,
    };
    let separator = rules.sort_separator.len();
    let initial = rules.initialize_with.unwrap_or("").len();
    Cost {
        steps: markup_steps(initial, USUAL_SEPARATOR)
            .saturating_mul(initials)
            .saturating_add(markup_steps(separator, USUAL_SEPARATOR))
            .saturating_add(STEPS_OF_NAME),
        bytes: own
            .saturating_add(rules.delimiter.len())
            .saturating_add(separator)
            .saturating_add(part_length(rules.family))
            .saturating_add(part_length(rules.given))
            .saturating_add(initial.saturating_mul(initials)),
    }
}

fn part_length(part: Option<&NamePart>) -> usize {
    match part {
        Some(part) => affixes_length(&part.affixes),
        None => 0,
    }
}

/// The cost of an element that stands in for names, with the affixes of these around it.
fn substitute_cost(program: &Program<'_>, names_at: usize) -> Cost {
    let names = match program.steps.get(names_at) {
        Some(Step::Names { names, .. }) => program.names.get(*names),
        _ => None,
    };
    match names {
        Some(names) => element_cost(names.affixes, Cost::NOTHING),
        None => Cost::STEP,
    }
}

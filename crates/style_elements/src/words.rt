//! Words that name variables, item types, locator types and terms.
use crate::fault::{VariableKinds, Wanted};
use crate::nearest::Nearest;
use crate::reading::Reading;
use crate::stop::Stop;
use crate::warning::{Oddity, WordKind};
use std::alloc::AllocError;
use style_file::item_type::{ITEM_TYPES, ItemType};
use style_file::locator::{LOCATOR_TYPES, LocatorType};
use style_file::term::{PLAIN_TERMS, TermName};
use style_file::variable::{
    DATE_VARIABLES, DateVariable, NAME_VARIABLES, NUMBER_VARIABLES, NameVariable, NumberVariable,
    TEXT_VARIABLES, Variable,
};

/// The variable of this name. One that CSL 1.0.2 lacks is noted.
pub fn variable(
    reading: &mut Reading<'_>,
    offset: usize,
    word: &str,
) -> Result<Option<Variable>, Stop> {
    let found = Variable::of_name(word);
    if found.is_none() {
        let nearest = nearest_variable(reading, word)?;
        unknown(reading, offset, word, WordKind::Variable, nearest)?;
    }
    Ok(found)
}

/// The name of a variable that is nearest to a word; none where there were enough guesses.
fn nearest_variable(reading: &Reading<'_>, word: &str) -> Result<Option<&'static str>, AllocError> {
    if !reading.may_guess() {
        return Ok(None);
    }
    let mut nearest = Nearest::new(reading.alloc, word);
    for row in TEXT_VARIABLES {
        nearest.consider(row.0)?;
    }
    for row in NUMBER_VARIABLES {
        nearest.consider(row.0)?;
    }
    for row in DATE_VARIABLES {
        nearest.consider(row.0)?;
    }
    for row in NAME_VARIABLES {
        nearest.consider(row.0)?;
    }
    Ok(nearest.word())
}

/// The number variable of this name. One that CSL 1.0.2 lacks is noted.
pub fn number_variable(
    reading: &mut Reading<'_>,
    offset: usize,
    word: &str,
) -> Result<Option<NumberVariable>, Stop> {
    match variable(reading, offset, word)? {
        Some(Variable::Number(variable)) => Ok(Some(variable)),
        None => Ok(None),
        Some(_) => Err(other_kind(reading, offset, word, VariableKinds::Number)),
    }
}

/// The date variable of this name. One that CSL 1.0.2 lacks is noted.
pub fn date_variable(
    reading: &mut Reading<'_>,
    offset: usize,
    word: &str,
) -> Result<Option<DateVariable>, Stop> {
    match variable(reading, offset, word)? {
        Some(Variable::Date(variable)) => Ok(Some(variable)),
        None => Ok(None),
        Some(_) => Err(other_kind(reading, offset, word, VariableKinds::Date)),
    }
}

/// The name variable of this name. One that CSL 1.0.2 lacks is noted.
pub fn name_variable(
    reading: &mut Reading<'_>,
    offset: usize,
    word: &str,
) -> Result<Option<NameVariable>, Stop> {
    match variable(reading, offset, word)? {
        Some(Variable::Name(variable)) => Ok(Some(variable)),
        None => Ok(None),
        Some(_) => Err(other_kind(reading, offset, word, VariableKinds::Name)),
    }
}

/// A variable of another kind than is wanted.
pub fn other_kind(reading: &Reading<'_>, offset: usize, word: &str, kinds: VariableKinds) -> Stop {
    reading.stop(offset, word, Wanted::VariableOf(kinds))
}

/// The item type of this name. One that CSL 1.0.2 lacks is noted.
pub fn item_type(
    reading: &mut Reading<'_>,
    offset: usize,
    word: &str,
) -> Result<Option<ItemType>, Stop> {
    let found = ItemType::of_name(word);
    if found.is_none() {
        let nearest = reading.nearest_row(word, ITEM_TYPES)?;
        unknown(reading, offset, word, WordKind::ItemType, nearest)?;
    }
    Ok(found)
}

/// The locator type of this name. One that CSL 1.0.2 lacks is noted.
pub fn locator_type(
    reading: &mut Reading<'_>,
    offset: usize,
    word: &str,
) -> Result<Option<LocatorType>, Stop> {
    let found = LocatorType::of_name(word);
    if found.is_none() {
        let nearest = reading.nearest_row(word, LOCATOR_TYPES)?;
        unknown(reading, offset, word, WordKind::LocatorType, nearest)?;
    }
    Ok(found)
}

/// The term of this name. One that CSL 1.0.2 lacks is noted.
pub fn term_name(
    reading: &mut Reading<'_>,
    offset: usize,
    word: &str,
) -> Result<Option<TermName>, Stop> {
    let found = TermName::of_name(word);
    if found.is_none() {
        let nearest = reading.nearest_row(word, PLAIN_TERMS)?;
        unknown(reading, offset, word, WordKind::Term, nearest)?;
    }
    Ok(found)
}

/// Notes a word that names nothing of its kind.
pub fn unknown(
    reading: &mut Reading<'_>,
    offset: usize,
    word: &str,
    kind: WordKind,
    nearest: Option<&'static str>,
) -> Result<(), Stop> {
    reading.note(offset, word, Oddity::Word { kind, nearest })
}

//! The keys of items.
use std::alloc::{AllocError, Global};
use style_file::item_type::ITEM_TYPES;
use style_file::variable::{
    DATE_VARIABLES, NAME_VARIABLES, NUMBER_VARIABLES, NameVariable, NumberVariable, TEXT_VARIABLES,
    Variable,
};

/// What a key of an item stands for.
#[derive(Clone, Copy)]
pub(crate) enum Key {
    /// A variable, by its name in CSL 1.0.2.
    Variable(Variable),
    /// A variable, by an older name.
    Older(Variable),
    /// What is no variable: the item's id, its type, and what CSL-JSON leaves to each program.
    NoVariable,
}

/// The keys that stand for no variable.
const NO_VARIABLES: &[&str] = &["categories", "custom", "id", "type"];

/// Names of variables that CSL-JSON has in place of those of CSL: one that pandoc reads, and those
/// of numbers in the schema.
const OLDER_KEYS: &[(&str, Variable)] = &[
    (
        "editortranslator",
        Variable::Name(NameVariable::EditorTranslator),
    ),
    ("part", Variable::Number(NumberVariable::PartNumber)),
    ("printing", Variable::Number(NumberVariable::PrintingNumber)),
    (
        "supplement",
        Variable::Number(NumberVariable::SupplementNumber),
    ),
];

/// What the key stands for; none where no item has it.
pub(crate) fn key_named(name: &str) -> Option<Key> {
    if let Some(variable) = Variable::of_name(name) {
        return Some(if variable.name() == name {
            Key::Variable(variable)
        } else {
            Key::Older(variable)
        });
    }
    if NO_VARIABLES.contains(&name) {
        return Some(Key::NoVariable);
    }
    for (older, variable) in OLDER_KEYS {
        if name == *older {
            return Some(Key::Older(*variable));
        }
    }
    None
}

/// The keys that an item may have.
pub(crate) fn item_keys(alloc: Global) -> Result<Vec<&'static str>, AllocError> {
    let mut names = Vec::from_slice(alloc, NO_VARIABLES)?;
    names.extend(TEXT_VARIABLES.iter().map(|row| row.0))?;
    names.extend(NUMBER_VARIABLES.iter().map(|row| row.0))?;
    names.extend(DATE_VARIABLES.iter().map(|row| row.0))?;
    names.extend(NAME_VARIABLES.iter().map(|row| row.0))?;
    Ok(names)
}

/// The names of the item types.
pub(crate) fn type_names(alloc: Global) -> Result<Vec<&'static str>, AllocError> {
    ITEM_TYPES.iter().map(|row| row.0).collect(alloc)
}

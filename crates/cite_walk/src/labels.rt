//! Labels of items (CSL 1.0.2, the variable `citation-label`).
use crate::values::plain_value;
use cite_names::others::told_names;
use reference_values::date::DateSpan;
use reference_values::name::Name;
use reference_values::reference::Reference;
use reference_values::rich_text::RichText;
use std::alloc::{AllocError, Global};
use style_file::variable::{DateVariable, NameVariable, TextVariable};

/// The label of an item: its own, or one made of its names and its year. That has four
/// letters of up to four family names, and the last two digits of the year: `Doe99`, `RoNo78`.
///
/// # Errors
///
/// Where memory is refused.
pub fn label_of(alloc: Global, reference: &Reference) -> Result<RichText, AllocError> {
    if let Some(label) = reference.text(TextVariable::CitationLabel) {
        return label.clone();
    }
    let mut label = String::new(alloc);
    push_names(&mut label, told_names(names_of(reference)))?;
    push_year(alloc, &mut label, reference)?;
    plain_value(alloc, label.as_str())
}

/// The names by which an item is cited: those of its authors, editors or translators, or else the
/// first that it has.
fn names_of(reference: &Reference) -> &[Name] {
    let roles = [
        NameVariable::Author,
        NameVariable::Editor,
        NameVariable::Translator,
    ];
    for role in roles {
        if let Some(names) = reference.names(role) {
            return names;
        }
    }
    match reference.names.first() {
        Some((_, names)) => names,
        None => &[],
    }
}

fn push_names(label: &mut String, names: &[Name]) -> Result<(), AllocError> {
    for (name, count) in names.iter().zip(letters_of_names(names.len())) {
        for letter in family_of(name).chars().take(*count) {
            label.push(letter)?;
        }
    }
    Ok(())
}

/// How many letters a label has of each of so many names. Those after the fourth have none.
fn letters_of_names(names: usize) -> &'static [usize] {
    match names {
        0 => &[],
        1 => &[4],
        2 => &[2, 2],
        3 => &[2, 1, 1],
        _ => &[1, 1, 1, 1],
    }
}

fn family_of(name: &Name) -> &str {
    match name {
        Name::Person(person) => person
            .family
            .as_deref()
            .or(person.given.as_deref())
            .unwrap_or(""),
        Name::Literal(text) => text.as_str(),
    }
}

fn push_year(alloc: Global, label: &mut String, reference: &Reference) -> Result<(), AllocError> {
    let Some(date) = reference.date(DateVariable::Issued) else {
        return Ok(());
    };
    let year = match &date.span {
        Some(DateSpan::On(date) | DateSpan::Since(date) | DateSpan::Until(date)) => date.year,
        Some(DateSpan::Between(first, _)) => first.year,
        None => return Ok(()),
    };
    let ending = year.unsigned_abs() % 100;
    label.push_str(format!(in alloc; "{ending:02}")?.as_str())
}

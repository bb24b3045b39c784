//! Variables that the note of an item names, as Zotero's field `Extra` has them.
use crate::keys::{Key, key_named};
use crate::names::name_in_note;
use crate::place::Place;
use crate::reader::Reader;
use crate::warning::WarningKind;
use reference_values::name::Name;
use reference_values::reference::Reference;
use reference_values::rich_text::RichText;
use serde_json::Value;
use std::alloc::{AllocError, Global};
use style_file::item_type::ItemType;
use style_file::variable::{NameVariable, TextVariable, Variable};

/// What a line of a note names, and the value that it has there.
#[derive(Clone, Copy)]
struct NoteLine<'t> {
    named: Named,
    value: &'t str,
    /// The line as it stands.
    whole: &'t str,
}

/// What a line of a note names.
#[derive(Clone, Copy)]
enum Named {
    Variable(Variable),
    /// The type of the item.
    Type(ItemType),
    /// Nothing that is known.
    Nothing,
}

impl Reader {
    /// Takes the type and the variables that stand at the beginning of an item's note out of it.
    /// What an item has under a key of its own stays, but for its type and its dates. Lines that
    /// name something else stay in the note.
    pub(crate) fn take_note(
        &mut self,
        place: &Place,
        item: &Value,
        reference: &mut Reference,
    ) -> Result<(), AllocError> {
        let Some(Value::String(note)) = item.get("note") else {
            return Ok(());
        };
        let (lines, rest) = lines_of(self.alloc, note.as_str())?;
        if lines
            .iter()
            .all(|line| matches!(line.named, Named::Nothing))
        {
            return Ok(());
        }
        let place = place.member("note");
        let mut names = Vec::new(self.alloc);
        let mut left = String::new(self.alloc);
        for line in &lines {
            match line.named {
                Named::Variable(variable) => {
                    self.take_value(&place, variable, line.value, reference, &mut names)?;
                }
                Named::Type(item_type) => reference.item_type = item_type,
                Named::Nothing => left.push_str(line.whole)?,
            }
        }
        reference.names.append(&mut names)?;
        left.push_str(rest)?;
        set_note(reference, self.of_markup(left.as_str().trim())?)
    }

    /// Takes the value that a line has of a variable.
    fn take_value(
        &mut self,
        place: &Place,
        variable: Variable,
        value: &str,
        reference: &mut Reference,
        names: &mut Vec<(NameVariable, Vec<Name>)>,
    ) -> Result<(), AllocError> {
        if has(reference, variable) {
            return self.warn(place, WarningKind::NotedTwice);
        }
        match variable {
            Variable::Text(variable) => {
                if let Some(text) = self.of_markup(value)? {
                    reference.texts.push((variable, text))?;
                }
            }
            Variable::Number(variable) => {
                if let Some(text) = self.of_markup(value)? {
                    reference.numbers.push((variable, text))?;
                }
            }
            Variable::Date(variable) => {
                if let Some(date) = self.date_of_text(place, value)? {
                    reference.dates.retain(|pair| pair.0 != variable);
                    reference.dates.push((variable, date))?;
                }
            }
            Variable::Name(variable) => {
                let name = name_in_note(self.alloc, value)?;
                add_name(self.alloc, names, variable, name)?;
            }
        }
        Ok(())
    }
}

/// What the beginning of a note says of variables, and what follows that.
fn lines_of(alloc: Global, note: &str) -> Result<(Vec<NoteLine<'_>>, &str), AllocError> {
    let mut lines = Vec::new(alloc);
    let mut rest = note;
    for _ in 0..note.len() {
        let Some((line, behind)) = first_line(rest) else {
            break;
        };
        lines.push(line)?;
        rest = behind;
    }
    Ok((lines, rest))
}

/// What a note says first of a variable, as a line `name: value` or as `{:name: value}`, and what
/// follows that.
fn first_line(note: &str) -> Option<(NoteLine<'_>, &str)> {
    let note = note.trim_start();
    let (line, behind) = match note.strip_prefix("{:") {
        Some(inner) => {
            let (line, behind) = inner.split_once('}')?;
            (line, behind.strip_prefix('\n').unwrap_or(behind))
        }
        None => note.split_once('\n').unwrap_or((note, "")),
    };
    let length = note.len().saturating_sub(behind.len());
    let whole = note.get(..length).unwrap_or(note);
    Some((note_line(line, whole)?, behind))
}

/// What `name: value` says; none where the value is empty, or what stands before it is no name.
fn note_line<'t>(line: &'t str, whole: &'t str) -> Option<NoteLine<'t>> {
    let (name, value) = line.trim().split_once(':')?;
    let value = value.trim();
    if value.is_empty() {
        return None;
    }
    Some(NoteLine {
        named: named_by(name, value)?,
        value,
        whole,
    })
}

/// What a name stands for before this value; none of what is no name.
fn named_by(name: &str, value: &str) -> Option<Named> {
    match key_named(name) {
        Some(Key::Variable(variable) | Key::Older(variable)) => Some(Named::Variable(variable)),
        _ if !is_name(name) => None,
        _ if name == "type" => Some(match ItemType::of_name(value) {
            Some(item_type) => Named::Type(item_type),
            None => Named::Nothing,
        }),
        _ => Some(Named::Nothing),
    }
}

/// Whether a text may be the name of a variable.
fn is_name(text: &str) -> bool {
    !text.is_empty()
        && text
            .chars()
            .all(|c| c.is_ascii_alphabetic() || matches!(c, '-' | '_'))
}

/// Whether the reference has a value of the variable that stays. A date of the note goes before it.
fn has(reference: &Reference, variable: Variable) -> bool {
    match variable {
        // the note itself is what is read
        Variable::Text(TextVariable::Note) => true,
        Variable::Text(variable) => reference.text(variable).is_some(),
        Variable::Number(variable) => reference.number(variable).is_some(),
        Variable::Date(_) => false,
        Variable::Name(variable) => reference.names(variable).is_some(),
    }
}

/// Adds a name to those of its variable.
fn add_name(
    alloc: Global,
    names: &mut Vec<(NameVariable, Vec<Name>)>,
    variable: NameVariable,
    name: Name,
) -> Result<(), AllocError> {
    for pair in names.iter_mut() {
        if pair.0 == variable {
            pair.1.push(name)?;
            return Ok(());
        }
    }
    let mut first = Vec::new(alloc);
    first.push(name)?;
    names.push((variable, first))?;
    Ok(())
}

/// Puts another note in the place of a reference's note, or takes it away.
fn set_note(reference: &mut Reference, note: Option<RichText>) -> Result<(), AllocError> {
    reference.texts.retain(|pair| pair.0 != TextVariable::Note);
    if let Some(note) = note {
        reference.texts.push((TextVariable::Note, note))?;
    }
    Ok(())
}

//! The values of variables.
use crate::cite::CiteFacts;
use reference_values::rich_text::{RichText, Run, RunStyle};
use std::alloc::{AllocError, Global};
use style_file::variable::{NumberVariable, TextVariable, Variable};

/// A value that an item has, or that is made for a cite.
#[derive(Drop)]
pub enum Value<'c> {
    Known(&'c RichText),
    Made(RichText),
}

impl Value<'_> {
    pub fn text(&self) -> &RichText {
        match self {
            Value::Known(text) => text,
            Value::Made(text) => text,
        }
    }
}

/// A text without markup.
///
/// # Errors
///
/// Where memory is refused.
pub fn plain_value(alloc: Global, text: &str) -> Result<RichText, AllocError> {
    styled_value(alloc, text, RunStyle::PLAIN)
}

/// A text that stands in place of a value: with its markup where it is the same text, or where all
/// of the value has one style.
///
/// # Errors
///
/// Where memory is refused.
pub(crate) fn in_place_of(
    alloc: Global,
    value: &RichText,
    text: &str,
) -> Result<RichText, AllocError> {
    if value.plain(alloc)?.as_str() == text {
        return value.clone();
    }
    let style = match value.runs.as_slice() {
        [only] => only.style,
        _ => RunStyle::PLAIN,
    };
    styled_value(alloc, text, style)
}

/// A text of one style.
fn styled_value(alloc: Global, text: &str, style: RunStyle) -> Result<RichText, AllocError> {
    let mut runs = Vec::new(alloc);
    if !text.is_empty() {
        runs.push(Run {
            text: String::from_str(alloc, text)?,
            style,
        })?;
    }
    Ok(RichText { runs })
}

impl<'c> CiteFacts<'c> {
    /// The value of a text variable.
    pub fn text(&self, variable: TextVariable) -> Option<&'c RichText> {
        self.reference.text(variable)
    }

    /// The short form that the item itself has of a text variable.
    pub fn own_short_form(&self, variable: TextVariable) -> Option<&'c RichText> {
        short_form(variable).and_then(|short| self.reference.text(short))
    }

    /// The value of a number variable.
    ///
    /// # Errors
    ///
    /// Where memory is refused.
    pub fn number(
        &self,
        alloc: Global,
        variable: NumberVariable,
    ) -> Result<Option<Value<'c>>, AllocError> {
        let made = match variable {
            NumberVariable::CitationNumber => format!(in alloc; "{}", self.number)?,
            NumberVariable::FirstReferenceNoteNumber => match self.first_note_number {
                Some(number) if !self.is_first => format!(in alloc; "{number}")?,
                _ => return Ok(None),
            },
            NumberVariable::Locator => {
                return Ok(self.locator.map(|locator| Value::Known(&locator.text)));
            }
            NumberVariable::PageFirst => match self.reference.number(variable) {
                Some(text) => return Ok(Some(Value::Known(text))),
                None => match self.reference.number(NumberVariable::Page) {
                    Some(pages) => first_page(alloc, pages)?,
                    None => return Ok(None),
                },
            },
            _ => return Ok(self.reference.number(variable).map(Value::Known)),
        };
        Ok(Some(Value::Made(plain_value(alloc, made.as_str())?)))
    }

    /// Whether a variable has a value.
    pub fn has(&self, variable: Variable) -> bool {
        match variable {
            Variable::Text(TextVariable::YearSuffix) => self.year_suffix.is_some(),
            Variable::Text(variable) => self.reference.text(variable).is_some(),
            Variable::Number(NumberVariable::CitationNumber) => true,
            Variable::Number(NumberVariable::FirstReferenceNoteNumber) => {
                self.first_note_number.is_some() && !self.is_first
            }
            Variable::Number(NumberVariable::Locator) => self.locator.is_some(),
            Variable::Number(NumberVariable::PageFirst) => {
                self.reference.number(NumberVariable::PageFirst).is_some()
                    || self.reference.number(NumberVariable::Page).is_some()
            }
            Variable::Number(variable) => self.reference.number(variable).is_some(),
            Variable::Date(variable) => self.reference.date(variable).is_some(),
            Variable::Name(variable) => self.reference.names(variable).is_some(),
        }
    }
}

/// The first page of pages.
fn first_page(alloc: Global, pages: &RichText) -> Result<String, AllocError> {
    let plain = pages.plain(alloc)?;
    let text = plain.as_str().trim();
    let first = text
        .split(|c| matches!(c, '-' | '–' | ',' | ';' | '&' | ' '))
        .next()
        .unwrap_or(text);
    String::from_str(alloc, first)
}

fn short_form(variable: TextVariable) -> Option<TextVariable> {
    match variable {
        TextVariable::Title => Some(TextVariable::TitleShort),
        TextVariable::ContainerTitle => Some(TextVariable::ContainerTitleShort),
        _ => None,
    }
}

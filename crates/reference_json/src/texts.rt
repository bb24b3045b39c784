//! Texts and numbers of an item.
ghost use Rattle.serde_json.specs.Data.{array};
ghost use Rattle.serde_json.specs.View.{items_view, view};
ghost use Rattle.reference_json.specs.Faults.{Faults};

use crate::fault::{ReferencesError, Wanted};
use crate::place::Place;
use crate::reader::{Reader, refusal};
use crate::warning::WarningKind;
use reference_values::rich_text::RichText;
use serde_json::Value;
use std::alloc::AllocError;

/// Appends a text, with a comma before it where it is not the first.
fn append(joined: &mut String, text: &str) -> Result<(), AllocError> {
    if !joined.is_empty() && !text.is_empty() {
        joined.push_str(", ")?;
    }
    joined.push_str(text)
}

impl Reader {
    /// The text or the number that the value is, which may be empty; none of null.
    fn single_text(&self, place: &Place, value: &Value) -> Result<Option<String>, ReferencesError>
        ensures { Faults result place.now (view value.now) }
    {
        match value {
            Value::Null => Ok(None),
            Value::String(text) => Ok(Some(text.clone()?)),
            Value::Number(number) => Ok(Some(self.number_text(place, number)?)),
            _ => Err(refusal(self.alloc, place, value, Wanted::Text)),
        }
    }

    /// The texts of a list, with commas between.
    #[tactic(auto, using(crate::proofs::Parts::item_there))]
    fn joined_texts(&mut self, place: &Place, items: &[Value]) -> Result<String, ReferencesError>
        ensures { Faults result place.now (array (items_view items.now)) }
    {
        let mut joined = String::new(self.alloc);
        for (index, item) in items.iter().enumerate() {
            if let Some(text) = self.single_text(&place.item(index), item)? {
                append(&mut joined, text.as_str())?;
            }
        }
        if !joined.is_empty() {
            self.warn(place, WarningKind::JoinedTexts)?;
        }
        Ok(joined)
    }

    /// The text that the value is; none of null, and of what is empty.
    pub(crate) fn text(
        &mut self,
        place: &Place,
        value: &Value,
    ) -> Result<Option<String>, ReferencesError>
        ensures { Faults result place.now (view value.now) }
    {
        let text = match value {
            Value::Array(items) => Some(self.joined_texts(place, items)?),
            _ => self.single_text(place, value)?,
        };
        Ok(text.filter(|text| !text.is_empty()))
    }

    /// The text with markup that the value is; none of null, and of what is empty.
    pub(crate) fn rich_text(
        &mut self,
        place: &Place,
        value: &Value,
    ) -> Result<Option<RichText>, ReferencesError>
        ensures { Faults result place.now (view value.now) }
    {
        if let Value::String(text) = value {
            return Ok(self.of_markup(text.as_str())?);
        }
        match self.text(place, value)? {
            Some(text) => Ok(self.of_markup(text.as_str())?),
            None => Ok(None),
        }
    }

    /// What the markup writes, if that is not empty.
    pub(crate) fn of_markup(&self, markup: &str) -> Result<Option<RichText>, AllocError> {
        let text = RichText::of_markup(self.alloc, markup)?;
        Ok(if text.is_empty() { None } else { Some(text) })
    }

    /// The truth value that the value is or stands for: a number or a text stands for one, and 0,
    /// `0`, `false` and an empty text for false.
    pub(crate) fn flag(&self, place: &Place, value: &Value) -> Result<bool, ReferencesError>
        ensures { Faults result place.now (view value.now) }
    {
        match value {
            Value::Null => Ok(false),
            Value::Bool(truth) => Ok(*truth),
            Value::Number(number) => Ok(number.as_f64() != Some(0.0)),
            Value::String(text) => Ok(!matches!(text.as_str(), "" | "0" | "false")),
            _ => Err(refusal(self.alloc, place, value, Wanted::Flag)),
        }
    }
}

//! Ids read from JSON.
use cite_inputs::error::CallError;
use cite_inputs::json::{json_value, wrong_item, wrong_part};
use cite_inputs::texts::TextName;
use reference_json::fault::{Pointer, Step};
use reference_json::unkept::{NumberTexts, Unkept};
use serde_json::{Number, Value};
use std::alloc::{AllocError, Global};

/// The ids of a JSON list. They are texts or numbers.
///
/// # Errors
///
/// `Fault` where the bytes are no such list; `OutOfMemory`.
pub(crate) fn read_ids(alloc: Global, bytes: &[u8]) -> Result<Vec<String>, CallError> {
    let value = json_value(alloc, TextName::Items, bytes)?;
    let Some(members) = value.as_array() else {
        let why = "wanted a list of ids";
        return Err(wrong_part(alloc, TextName::Items, &"", &why));
    };
    let unkept = Unkept::of_bytes(alloc, bytes)?;
    let mut ids = Vec::new(alloc);
    for (place, member) in members.iter().enumerate() {
        match id_of(alloc, &unkept.number_texts, place, member)? {
            Some(id) => ids.push(id)?,
            None => {
                let why = "wanted an id, which is a text or a number";
                return Err(wrong_item(alloc, TextName::Items, place, &why));
            }
        }
    }
    Ok(ids)
}

/// The id that a member of the list is.
fn id_of(
    alloc: Global,
    texts: &NumberTexts,
    place: usize,
    member: &Value,
) -> Result<Option<String>, AllocError> {
    match member {
        Value::String(id) => Ok(Some(id.clone()?)),
        Value::Number(number) => Ok(Some(number_text(alloc, texts, place, number)?)),
        _ => Ok(None),
    }
}

/// A number, as it stands in the text.
fn number_text(
    alloc: Global,
    texts: &NumberTexts,
    place: usize,
    number: &Number,
) -> Result<String, AllocError> {
    if !texts.may_have(number) {
        return format!(in alloc; "{number}");
    }
    let mut steps = Vec::new(alloc);
    steps.push(Step::Item(place))?;
    texts.text_at(alloc, &Pointer { steps }, number)
}

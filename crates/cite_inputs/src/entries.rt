//! Entries of BibTeX, as they stand.
use reference_bibtex::entry::{BibEntry, BibField};
use reference_bibtex::syntax::read_entries;
use reference_files::form::ReferenceForm;
use serde_json::{Map, Value, put};
use std::alloc::{AllocError, Global};

/// The entries of a text of BibTeX or BibLaTeX, as a JSON list of objects: `key`, `type`, and
/// `fields`, whose values are as they stand there. Of a text in another form there are none.
///
/// # Errors
///
/// Where memory is refused.
pub(crate) fn entries_in(
    alloc: Global,
    text: &[u8],
    form: ReferenceForm,
) -> Result<Value, AllocError> {
    let mut values = Vec::new(alloc);
    if form == ReferenceForm::BibTex || form == ReferenceForm::BibLatex {
        let text = str::from_utf8(text).unwrap_or("");
        let file = read_entries(alloc, text.strip_prefix('\u{feff}').unwrap_or(text))?;
        for entry in &file.entries {
            values.push(entry_value(alloc, entry)?)?;
        }
    }
    Ok(Value::Array(values))
}

fn entry_value(alloc: Global, entry: &BibEntry) -> Result<Value, AllocError> {
    let mut members = Map::new(alloc);
    put(
        &mut members,
        alloc,
        "key",
        Value::String(entry.key.clone()?),
    )?;
    put(
        &mut members,
        alloc,
        "type",
        Value::String(entry.kind.clone()?),
    )?;
    put(
        &mut members,
        alloc,
        "fields",
        field_values(alloc, &entry.fields)?,
    )?;
    Ok(Value::Object(members))
}

fn field_values(alloc: Global, fields: &[BibField]) -> Result<Value, AllocError> {
    let mut members = Map::new(alloc);
    for field in fields {
        let value = Value::String(field.value.clone()?);
        put(&mut members, alloc, field.name.as_str(), value)?;
    }
    Ok(Value::Object(members))
}

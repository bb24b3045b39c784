//! Reading entries.
ghost use Rattle.std.specs.Prelude.{◌≡◌, ◌++◌, IfOk, OnOk, Some, codes};
ghost use Rattle.serde_json.specs.Data.{array};
ghost use Rattle.serde_json.specs.View.{view, items_view};
ghost use Rattle.serde_json.specs.Find.{as_str};
ghost use Rattle.document_values.specs.Words.{
  all_items,
  items_of_key,
  list_form,
  object_with,
  where_present,
};
ghost use Rattle.document_values.specs.Names.{rows_view};
ghost use Rattle.document_requests.specs.Entries.{
  person_form,
  year_form,
  chunked,
  chunked_form,
  pairs_of,
  pairs_at,
  entry_keys,
  entry_form,
};
ghost use Rattle.document_values.specs.Reads.{Faults, Reads};

use crate::persons::persons_of;
use csl_base::entry::{Chunk, ChunkKind, ChunkedString, Date, Person, PlainEntry};
use csl_base::seq::Seq;
use csl_base::taxonomy::{DateVariable, NameVariable, NumberVariable, StandardVariable};
use csl_base::text::Text;
use document_values::error::ReadError;
use document_values::fault::Wanted;
use document_values::tables::{
    DATE_VARIABLES, NAME_VARIABLES, NUMBER_VARIABLES, STANDARD_VARIABLES,
};
use document_values::texts::{held_text, optional_held_text};
use document_values::words::{object_with, required_list, text_at, whole_between};
use serde_json::Value;
use std::alloc::{AllocError, Global};

// ---- what variables hold

fn date_of(alloc: Global, value: &Value) -> Result<Date, ReadError>
    ensures read { Reads (λ d. d) result (year_form (view value.now)) }
    ensures fault { Faults result (view value.now) }
{
    let year = whole_between(alloc, value, -2_147_483_648, 2_147_483_647, Wanted::Year)?;
    Ok(Date { year: year as i32 })
}

/// The text in one piece.
fn chunked(alloc: Global, text: Text) -> Result<ChunkedString, AllocError>
    ensures { IfOk result (λ c. c ≡ chunked text) }
{
    let mut chunks = Vec::new(alloc);
    chunks.push(Chunk {
        value: text,
        kind: ChunkKind::Normal,
    })?;
    Ok(ChunkedString(Seq::new(chunks)))
}

fn chunked_of(alloc: Global, value: &Value) -> Result<ChunkedString, ReadError>
    ensures read { Reads (λ c. c) result (chunked_form (view value.now)) }
    ensures fault { Faults result (view value.now) }
{
    Ok(chunked(alloc, held_text(alloc, value)?)?)
}

// ---- what an entry says of its variables, in the order of the tables

/// Appends a variable and what it holds, if it holds something.
fn push_held<V: Drop, A: Drop>(
    pairs: &mut Vec<(V, A)>,
    variable: V,
    held: Option<A>,
) -> Result<(), AllocError>
    ensures { OnOk result (pairs.new.items ≡ pairs.old.items ++ pairs_of variable held) }
{
    if let Some(held) = held {
        pairs.push((variable, held))?;
    }
    Ok(())
}

#[tactic(auto, using(document_values::proofs::Ways::fails_outside))]
fn optional_persons(
    alloc: Global,
    object: &Value,
    key: &str,
) -> Result<Option<Seq<Person>>, ReadError>
    ensures read { Reads (λ h. h) result
        (where_present (list_form person_form) key.now (view object.now)) }
    ensures fault { Faults result (view object.now) }
{
    match object.get(key) {
        None => Ok(None),
        Some(member) => match persons_of(alloc, member) {
            Ok(persons) => Ok(Some(persons)),
            Err(error) => Err(error.under(alloc, key)),
        },
    }
}

fn names_in(
    alloc: Global,
    rows: &[(&str, NameVariable)],
    object: &Value,
) -> Result<Vec<(NameVariable, Seq<Person>)>, ReadError>
    ensures read { Reads (λ v. v.items) result
        (pairs_at (rows_view rows.now) (list_form person_form) (view object.now)) }
    ensures fault { Faults result (view object.now) }
{
    let mut pairs = Vec::new(alloc);
    for row in rows {
        let held = optional_persons(alloc, object, row.0)?;
        push_held(&mut pairs, row.1, held)?;
    }
    Ok(pairs)
}

#[tactic(auto, using(document_values::proofs::Ways::fails_outside))]
fn optional_date(alloc: Global, object: &Value, key: &str) -> Result<Option<Date>, ReadError>
    ensures read { Reads (λ h. h) result (where_present year_form key.now (view object.now)) }
    ensures fault { Faults result (view object.now) }
{
    match object.get(key) {
        None => Ok(None),
        Some(member) => match date_of(alloc, member) {
            Ok(date) => Ok(Some(date)),
            Err(error) => Err(error.under(alloc, key)),
        },
    }
}

fn dates_in(
    alloc: Global,
    rows: &[(&str, DateVariable)],
    object: &Value,
) -> Result<Vec<(DateVariable, Date)>, ReadError>
    ensures read { Reads (λ v. v.items) result
        (pairs_at (rows_view rows.now) year_form (view object.now)) }
    ensures fault { Faults result (view object.now) }
{
    let mut pairs = Vec::new(alloc);
    for row in rows {
        let held = optional_date(alloc, object, row.0)?;
        push_held(&mut pairs, row.1, held)?;
    }
    Ok(pairs)
}

#[tactic(auto, using(document_values::proofs::Ways::fails_outside))]
fn optional_chunked(
    alloc: Global,
    object: &Value,
    key: &str,
) -> Result<Option<ChunkedString>, ReadError>
    ensures read { Reads (λ h. h) result (where_present chunked_form key.now (view object.now)) }
    ensures fault { Faults result (view object.now) }
{
    match object.get(key) {
        None => Ok(None),
        Some(member) => match chunked_of(alloc, member) {
            Ok(chunks) => Ok(Some(chunks)),
            Err(error) => Err(error.under(alloc, key)),
        },
    }
}

fn texts_in(
    alloc: Global,
    rows: &[(&str, StandardVariable)],
    object: &Value,
) -> Result<Vec<(StandardVariable, ChunkedString)>, ReadError>
    ensures read { Reads (λ v. v.items) result
        (pairs_at (rows_view rows.now) chunked_form (view object.now)) }
    ensures fault { Faults result (view object.now) }
{
    let mut pairs = Vec::new(alloc);
    for row in rows {
        let held = optional_chunked(alloc, object, row.0)?;
        push_held(&mut pairs, row.1, held)?;
    }
    Ok(pairs)
}

fn numbers_in(
    alloc: Global,
    rows: &[(&str, NumberVariable)],
    object: &Value,
) -> Result<Vec<(NumberVariable, Text)>, ReadError>
    ensures read { Reads (λ v. v.items) result
        (pairs_at (rows_view rows.now) as_str (view object.now)) }
    ensures fault { Faults result (view object.now) }
{
    let mut pairs = Vec::new(alloc);
    for row in rows {
        let held = optional_held_text(alloc, object, row.0)?;
        push_held(&mut pairs, row.1, held)?;
    }
    Ok(pairs)
}

// ---- entries

/// The value, which has to be an object with no keys but those of an entry.
fn entry_object(alloc: Global, value: &Value) -> Result<&Value, ReadError>
    ensures read { Reads (λ v. view v.now) result (object_with entry_keys (view value.now)) }
    ensures fault { Faults result (view value.now) }
    ensures same { IfOk result (λ v. v.now ≡ value.now) }
{
    object_with(
        alloc,
        &[
            "key",
            "label",
            "author",
            "editor",
            "translator",
            "issued",
            "accessed",
            "available-date",
            "event-date",
            "submitted",
            "original-date",
            "title",
            "container-title",
            "publisher",
            "publisher-place",
            "note",
            "url",
            "doi",
            "volume",
            "issue",
            "number",
            "edition",
        ],
        value,
    )
}

#[tactic(auto, unfolding(crate::specs::Entries::entry_form))]
fn read_entry(alloc: Global, value: &Value) -> Result<PlainEntry, ReadError>
    ensures read { Reads (λ e. e) result (entry_form (view value.now)) }
    ensures fault { Faults result (view value.now) }
{
    let object = entry_object(alloc, value)?;
    let key = text_at(alloc, object, "key")?;
    let label = optional_held_text(alloc, object, "label")?;
    let names = names_in(alloc, NAME_VARIABLES, object)?;
    let dates = dates_in(alloc, DATE_VARIABLES, object)?;
    let texts = texts_in(alloc, &STANDARD_VARIABLES[..7], object)?;
    let numbers = numbers_in(alloc, &NUMBER_VARIABLES[3..], object)?;
    Ok(PlainEntry {
        key: Text::new(key),
        label,
        names: Seq::new(names),
        dates: Seq::new(dates),
        texts: Seq::new(texts),
        numbers: Seq::new(numbers),
    })
}

#[tactic(auto, using(document_values::proofs::Ways::item_there))]
fn all_entries(alloc: Global, items: &[Value]) -> Result<Vec<PlainEntry>, ReadError>
    ensures read { Reads (λ v. v.items) result (all_items entry_form (items_view items.now)) }
    ensures fault { Faults result (array (items_view items.now)) }
{
    let mut entries = Vec::new(alloc);
    for (place, item) in items.iter().enumerate() {
        match read_entry(alloc, item) {
            Ok(entry) => entries.push(entry)?,
            Err(error) => return Err(error.in_item(place)),
        }
    }
    Ok(entries)
}

/// The entries of the document.
#[tactic(auto, using(document_values::proofs::Ways::fails_outside))]
pub fn entries_of(alloc: Global, object: &Value) -> Result<Vec<PlainEntry>, ReadError>
    ensures read { Reads (λ v. v.items) result
        (items_of_key entry_form (codes "entries") (view object.now)) }
    ensures fault { Faults result (view object.now) }
{
    let list = required_list(alloc, object, "entries")?;
    match all_entries(alloc, list) {
        Ok(entries) => Ok(entries),
        Err(error) => Err(error.under(alloc, "entries")),
    }
}

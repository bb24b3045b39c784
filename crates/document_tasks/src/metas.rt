//! Reading what an element was rendered for.
ghost use Rattle.std.specs.Prelude.{◌≡◌, codes};
ghost use Rattle.serde_json.specs.Data.{array};
ghost use Rattle.serde_json.specs.View.{view, items_view};
ghost use Rattle.document_values.specs.Words.{all_items, items_of_key, required, where_present};
ghost use Rattle.document_values.specs.Reads.{Faults, Reads};
ghost use Rattle.document_requests.specs.Entries.{person_form};
ghost use Rattle.document_tasks.specs.MetaForm.{
  names_meta_form,
  name_meta_form,
  meta_named,
  entry_meta,
  name_meta,
  names_meta,
  object_meta,
  meta_form,
};

use crate::wholes::whole_at;
use csl_base::elem::ElemMeta;
use csl_base::entry::Person;
use csl_base::seq::Seq;
use csl_base::taxonomy::NameVariable;
use document_requests::persons::all_persons;
use document_values::error::ReadError;
use document_values::refusals::{lacking, unnamed};
use document_values::tables::NAME_VARIABLES;
use document_values::words::{name_at, object_with, required_list};
use serde_json::Value;
use std::alloc::Global;

// ---- persons

/// The persons under the key `persons`, which has to be there.
#[tactic(auto, using(document_values::proofs::Ways::fails_outside))]
fn persons_at(alloc: Global, object: &Value) -> Result<Seq<Person>, ReadError>
    ensures read { Reads (λ s. s) result
        (items_of_key person_form (codes "persons") (view object.now)) }
    ensures fault { Faults result (view object.now) }
{
    let list = required_list(alloc, object, "persons")?;
    match all_persons(alloc, list) {
        Ok(persons) => Ok(Seq::new(persons)),
        Err(error) => Err(error.under(alloc, "persons")),
    }
}

// ---- names

#[tactic(auto, unfolding(crate::specs::MetaForm::names_meta_form))]
fn names_of(alloc: Global, value: &Value) -> Result<(Seq<Person>, NameVariable), ReadError>
    ensures read { Reads (λ n. n) result (names_meta_form (view value.now)) }
    ensures fault { Faults result (view value.now) }
{
    let object = object_with(alloc, &["persons", "variable"], value)?;
    let persons = persons_at(alloc, object)?;
    let variable = name_at(alloc, NAME_VARIABLES, object, "variable")?;
    Ok((persons, variable))
}

#[tactic(auto, using(document_values::proofs::Ways::item_there))]
fn all_names(alloc: Global, items: &[Value]) -> Result<Vec<(Seq<Person>, NameVariable)>, ReadError>
    ensures read { Reads (λ v. v.items) result (all_items names_meta_form (items_view items.now)) }
    ensures fault { Faults result (array (items_view items.now)) }
{
    let mut all = Vec::new(alloc);
    for (place, item) in items.iter().enumerate() {
        match names_of(alloc, item) {
            Ok(names) => all.push(names)?,
            Err(error) => return Err(error.in_item(place)),
        }
    }
    Ok(all)
}

#[tactic(auto, unfolding(crate::specs::MetaForm::name_meta_form))]
fn name_of(alloc: Global, value: &Value) -> Result<ElemMeta, ReadError>
    ensures read { Reads (λ m. m) result (name_meta_form (view value.now)) }
    ensures fault { Faults result (view value.now) }
{
    let object = object_with(alloc, &["place", "variable"], value)?;
    let place = whole_at(alloc, object, "place")?;
    let variable = name_at(alloc, NAME_VARIABLES, object, "variable")?;
    Ok(ElemMeta::Name(variable, place))
}

// ---- metas

/// The metas that are names alone.
const NAMED_METAS: &[(&str, ())] = &[
    ("date", ()),
    ("citation-number", ()),
    ("citation-label", ()),
];

fn meta_named(name: &str) -> Option<ElemMeta>
    ensures { result ≡ meta_named name.now }
{
    match name {
        "date" => Some(ElemMeta::Date),
        "citation-number" => Some(ElemMeta::CitationNumber),
        "citation-label" => Some(ElemMeta::CitationLabel),
        _ => None,
    }
}

#[tactic(auto, unfolding(crate::specs::MetaForm::entry_meta))]
fn entry_meta_of(alloc: Global, value: &Value) -> Result<ElemMeta, ReadError>
    ensures read { Reads (λ m. m) result (entry_meta (view value.now)) }
    ensures fault { Faults result (view value.now) }
{
    let object = object_with(alloc, &["entry"], value)?;
    Ok(ElemMeta::Entry(whole_at(alloc, object, "entry")?))
}

#[tactic(auto, using(document_values::proofs::Ways::fails_outside), unfolding(crate::specs::MetaForm::name_meta))]
fn name_meta_of(alloc: Global, value: &Value) -> Result<ElemMeta, ReadError>
    ensures read { Reads (λ m. m) result (name_meta (view value.now)) }
    ensures fault { Faults result (view value.now) }
{
    let object = object_with(alloc, &["name"], value)?;
    match object.get("name") {
        Some(member) => name_of(alloc, member).map_err(|error| error.under(alloc, "name")),
        None => Err(lacking(alloc, object, "name")),
    }
}

#[tactic(auto, using(document_values::proofs::Ways::fails_outside), unfolding(crate::specs::MetaForm::names_meta))]
fn names_meta_of(alloc: Global, value: &Value) -> Result<ElemMeta, ReadError>
    ensures read { Reads (λ m. m) result (names_meta (view value.now)) }
    ensures fault { Faults result (view value.now) }
{
    let object = object_with(alloc, &["names"], value)?;
    let list = required_list(alloc, object, "names")?;
    match all_names(alloc, list) {
        Ok(names) => Ok(ElemMeta::Names(Seq::new(names))),
        Err(error) => Err(error.under(alloc, "names")),
    }
}

fn object_meta_of(alloc: Global, value: &Value) -> Result<ElemMeta, ReadError>
    ensures read { Reads (λ m. m) result (object_meta (view value.now)) }
    ensures fault { Faults result (view value.now) }
{
    if value.get("entry").is_some() {
        return entry_meta_of(alloc, value);
    }
    if value.get("name").is_some() {
        return name_meta_of(alloc, value);
    }
    names_meta_of(alloc, value)
}

/// What an element was rendered for, in the form of an answer's JSON.
///
/// # Errors
///
/// Where the value is of another form, and where memory is refused.
#[tactic(auto, unfolding(crate::specs::MetaForm::meta_form))]
pub fn meta_of(alloc: Global, value: &Value) -> Result<ElemMeta, ReadError>
    ensures read { Reads (λ m. m) result (meta_form (view value.now)) }
    ensures fault { Faults result (view value.now) }
{
    match value.as_str() {
        Some(name) => match meta_named(name) {
            Some(meta) => Ok(meta),
            None => Err(unnamed(alloc, value, NAMED_METAS)),
        },
        None => object_meta_of(alloc, value),
    }
}

/// The same under the key `meta`, if the key is there.
#[tactic(auto, using(document_values::proofs::Ways::fails_outside))]
pub(crate) fn optional_meta(alloc: Global, object: &Value) -> Result<Option<ElemMeta>, ReadError>
    ensures read { Reads (λ m. m) result
        (where_present meta_form (codes "meta") (view object.now)) }
    ensures fault { Faults result (view object.now) }
{
    match object.get("meta") {
        None => Ok(None),
        Some(member) => match meta_of(alloc, member) {
            Ok(meta) => Ok(Some(meta)),
            Err(error) => Err(error.under(alloc, "meta")),
        },
    }
}

//! Reading all that a host has written.
ghost use Rattle.std.specs.Prelude.{◌≡◌, OnOk, codes, option_and_then, true};
ghost use Rattle.serde_json.specs.Data.{array};
ghost use Rattle.serde_json.specs.View.{view, items_view};
ghost use Rattle.host_memo.specs.Written.{found};
ghost use Rattle.document_values.specs.Words.{all_items, required, where_present};
ghost use Rattle.document_values.specs.Reads.{Faults, IsErrorOf, Reads};
ghost use Rattle.document_styles.specs.NamedStyleView.{named_styles_view};
ghost use Rattle.document_tasks.specs.Known.{knows, task_among};
ghost use Rattle.document_tasks.specs.TreeForm.{tree_form};
ghost use Rattle.document_tasks.specs.WrittenForm.{
  first_name_form,
  has_tree,
  table_form,
  table_of_written,
  with_first_tree,
  written_cite,
  written_form,
};

use crate::known::Known;
use crate::task_names::{NAME_FORMS, USAGES};
use crate::tasks::key_of_task;
use crate::trees::tree_of;
use csl_base::elem::ElemChildren;
use csl_base::entry::PlainEntry;
use csl_base::names::NameDisambiguationProperties;
use csl_base::seq::Seq;
use document_styles::styles::NamedStyle;
use document_values::error::ReadError;
use document_values::fault::Wanted;
use document_values::refusals::{lacking, unlike, unnamed};
use document_values::words::{all_named, flag, list_of, name_or, object_with};
use driver_lookup::state::IdentifierUsage;
use driver_writers::cite::Cite;
use host_memo::key::TaskKey;
use host_memo::table::Table;
use ordered_map::map::OrderedMap;
use serde_json::Value;
use std::alloc::{AllocError, Global};

// ---- one thing that was written

/// The error of a task whose member of this key names nothing that is known.
fn unknown_at(alloc: Global, task: &Value, key: &str, wanted: Wanted) -> ReadError
    ensures { IsErrorOf result (view task.now) }
{
    match task.get(key) {
        Some(member) => unlike(alloc, member, wanted).under(alloc, key),
        None => lacking(alloc, task, key),
    }
}

/// The task that the value is, whose style and entry have to be known.
fn known_task(alloc: Global, known: &Known<'_>, value: &Value) -> Result<TaskKey, ReadError>
    ensures read { Reads (λ k. k) result (task_among (knows known.now) (view value.now)) }
    ensures fault { Faults result (view value.now) }
{
    let key = key_of_task(alloc, value)?;
    if !known.has_style(key.style.as_str()) {
        return Err(unknown_at(alloc, value, "style", Wanted::Style));
    }
    if !known.has_entry(key.entry.as_str()) {
        return Err(unknown_at(alloc, value, "entry", Wanted::Entry));
    }
    Ok(key)
}

/// The task under the key `task`, which has to be there.
#[tactic(auto, using(document_values::proofs::Ways::fails_outside))]
fn task_at(alloc: Global, known: &Known<'_>, object: &Value) -> Result<TaskKey, ReadError>
    ensures read { Reads (λ k. k) result
        (required (task_among (knows known.now)) (codes "task") (view object.now)) }
    ensures fault { Faults result (view object.now) }
{
    match object.get("task") {
        Some(member) => known_task(alloc, known, member).map_err(|error| error.under(
            alloc, "task",
        )),
        None => Err(lacking(alloc, object, "task")),
    }
}

/// The tree under the key `tree`, which has to be there.
#[tactic(auto, using(document_values::proofs::Ways::fails_outside))]
fn tree_at(alloc: Global, object: &Value) -> Result<ElemChildren, ReadError>
    ensures read { Reads (λ t. t) result (required tree_form (codes "tree") (view object.now)) }
    ensures fault { Faults result (view object.now) }
{
    match object.get("tree") {
        Some(member) => tree_of(alloc, member).map_err(|error| error.under(alloc, "tree")),
        None => Err(lacking(alloc, object, "tree")),
    }
}

fn first_name_of(alloc: Global, value: &Value) -> Result<NameDisambiguationProperties, ReadError>
    ensures read { Reads (λ n. n) result (first_name_form (view value.now)) }
    ensures fault { Faults result (view value.now) }
{
    let list = list_of(alloc, value)?;
    Ok(NameDisambiguationProperties {
        forms: Seq::new(all_named(alloc, NAME_FORMS, list)?),
    })
}

/// The forms of names under the key `first_name`, if the key is there.
#[tactic(auto, using(document_values::proofs::Ways::fails_outside))]
fn optional_first_name(
    alloc: Global,
    object: &Value,
) -> Result<Option<NameDisambiguationProperties>, ReadError>
    ensures read { Reads (λ n. n) result
        (where_present first_name_form (codes "first_name") (view object.now)) }
    ensures fault { Faults result (view object.now) }
{
    match object.get("first_name") {
        None => Ok(None),
        Some(member) => match first_name_of(alloc, member) {
            Ok(names) => Ok(Some(names)),
            Err(error) => Err(error.under(alloc, "first_name")),
        },
    }
}

/// What was written, of an object that says it.
#[tactic(auto, unfolding(crate::specs::WrittenForm::written_cite))]
fn written_cite(alloc: Global, object: &Value) -> Result<Cite, ReadError>
    ensures read { Reads (λ c. c) result (written_cite (view object.now)) }
    ensures fault { Faults result (view object.now) }
{
    let children = tree_at(alloc, object)?;
    let checked_disambiguate = flag(alloc, object, "disambiguate_tested")?;
    let first_name = optional_first_name(alloc, object)?;
    let identifier_usage = name_or(alloc, USAGES, object, "usage", IdentifierUsage::None)?;
    Ok(Cite {
        children,
        checked_disambiguate,
        first_name,
        identifier_usage,
    })
}

/// A task, whose style and entry are known, and what was written for it.
#[tactic(auto, unfolding(crate::specs::WrittenForm::written_form))]
fn written_of(alloc: Global, known: &Known<'_>, value: &Value) -> Result<(TaskKey, Cite), ReadError>
    ensures read { Reads (λ w. w) result (written_form (knows known.now) (view value.now)) }
    ensures fault { Faults result (view value.now) }
{
    let object = object_with(
        alloc,
        &["task", "tree", "disambiguate_tested", "first_name", "usage"],
        value,
    )?;
    let key = task_at(alloc, known, object)?;
    let cite = written_cite(alloc, object)?;
    Ok((key, cite))
}

// ---- all that was written

/// What is asked for where a task stands with another tree than before.
const TREES: &[(&str, ())] = &[("the tree that stands with its task before", ())];

/// Whether what is written for a task has the tree that the table has for it, if it has one.
fn agrees(table: &Table, key: &TaskKey, cite: &Cite) -> bool
    ensures { result ≡ has_tree (found table.now key.now) cite.now true }
{
    match table.get(key) {
        Some(first) => first.children == cite.children,
        None => true,
    }
}

/// Adds what is written for a task, unless something is there for it.
fn add(table: &mut Table, key: TaskKey, cite: Cite) -> Result<(), AllocError>
    ensures { OnOk result (found table.new ≡ with_first_tree (key, cite) (found table.old)) }
{
    let copy = key.clone()?;
    table.add(key, copy, cite)
}

#[tactic(auto, using(document_values::proofs::Ways::item_there))]
fn table_of_items(alloc: Global, known: &Known<'_>, items: &[Value]) -> Result<Table, ReadError>
    ensures read { Reads found result
        (option_and_then table_of_written
        (all_items (written_form (knows known.now)) (items_view items.now))) }
    ensures fault { Faults result (array (items_view items.now)) }
{
    let mut table = OrderedMap::new(alloc);
    for (place, item) in items.iter().enumerate() {
        match written_of(alloc, known, item) {
            Ok((key, cite)) => {
                if !agrees(&table, &key, &cite) {
                    return Err(unnamed(alloc, item, TREES).in_item(place));
                }
                add(&mut table, key, cite)?;
            }
            Err(error) => return Err(error.in_item(place)),
        }
    }
    Ok(table)
}

/// What a host has written for a document with these styles and entries, as a table: of what is
/// written for the same task the first stands in it.
///
/// # Errors
///
/// Where the value is of another form, a task names a style or an entry that isn't among these, or
/// a task stands twice in it with two different trees; each of these is refused by its place. Also
/// where memory is refused.
pub fn table_of(
    alloc: Global,
    value: &Value,
    styles: &[NamedStyle],
    entries: &[PlainEntry],
) -> Result<Table, ReadError>
    ensures read { Reads found result
        (table_form (named_styles_view styles.now) entries.now (view value.now)) }
    ensures fault { Faults result (view value.now) }
{
    let list = list_of(alloc, value)?;
    let known = Known::new(alloc, styles, entries)?;
    table_of_items(alloc, &known, list)
}

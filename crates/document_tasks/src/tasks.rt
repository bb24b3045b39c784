//! Reading tasks.
ghost use Rattle.std.specs.Prelude.{◌≡◌, Some, codes};
ghost use Rattle.serde_json.specs.Data.{Data};
ghost use Rattle.serde_json.specs.Find.{as_str, at};
ghost use Rattle.serde_json.specs.View.{view};
ghost use Rattle.driver_lookup.specs.declared.state.DisambiguateState.TheVariants as states;
ghost use Rattle.document_values.specs.Words.{optional, where_present, whole};
ghost use Rattle.document_values.specs.Reads.{Faults, Reads};
ghost use Rattle.document_tasks.specs.TaskForm.{
  cite_task_form,
  date_task_form,
  item_task_form,
  key_form,
  least_names,
  counted_locator_form,
  names_form,
  names_state,
  object_state,
  part_form,
  place_form,
  standing_form,
  state_form,
  state_named,
  suffix_state,
};

use crate::task_names::{KINDS, NAME_FORMS, REPEATS, TaskKind, USAGES, VERDICTS};
use crate::wholes::{whole_at, whole_of};
use csl_base::names::NameDisambiguationProperties;
use csl_base::seq::Seq;
use csl_base::taxonomy::Locator;
use csl_base::text::Text;
use document_requests::requests::locator_kind;
use document_values::error::ReadError;
use document_values::fault::Wanted;
use document_values::refusals::{unlike, unnamed};
use document_values::tables::PURPOSES;
use document_values::texts::{held_text_at, item_text};
use document_values::words::{
    flag, list_of, name_at, name_or, names_at, object_with, optional_name, optional_number,
};
use driver_lookup::means::Means;
use driver_lookup::state::{DisambiguateState, IbidState, IdentifierUsage};
use host_memo::key::{Standing, TaskKey, TaskPart};
use serde_json::Value;
use std::alloc::Global;

// ---- places

/// What a place is.
const PLACES: &[(&str, ())] = &[("[request, item]", ())];

/// The whole number that the item of a list is.
#[tactic(auto, using(document_values::proofs::Ways::fails_outside))]
fn whole_item(alloc: Global, item: &Value, place: usize) -> Result<usize, ReadError>
    ensures read { Reads (λ n. n) result (whole (view item.now)) }
    ensures fault { (around : Data) → at place around ≡ Some (view item.now)
        → Faults result around }
{
    whole_of(alloc, item).map_err(|error| error.in_item(place))
}

fn place_of(alloc: Global, value: &Value) -> Result<(usize, usize), ReadError>
    ensures read { Reads (λ p. p) result (place_form (view value.now)) }
    ensures fault { Faults result (view value.now) }
{
    match list_of(alloc, value)? {
        [request, item] => Ok((whole_item(alloc, request, 0)?, whole_item(alloc, item, 1)?)),
        _ => Err(unnamed(alloc, value, PLACES)),
    }
}

#[tactic(auto, using(document_values::proofs::Ways::fails_outside))]
fn optional_place(alloc: Global, object: &Value) -> Result<Option<(usize, usize)>, ReadError>
    ensures read { Reads (λ p. p) result
        (where_present place_form (codes "place") (view object.now)) }
    ensures fault { Faults result (view object.now) }
{
    match object.get("place") {
        None => Ok(None),
        Some(member) => match place_of(alloc, member) {
            Ok(place) => Ok(Some(place)),
            Err(error) => Err(error.under(alloc, "place")),
        },
    }
}

// ---- locators

fn locator_of(alloc: Global, value: &Value) -> Result<(Locator, Text), ReadError>
    ensures read { Reads (λ l. l) result (counted_locator_form (view value.now)) }
    ensures fault { Faults result (view value.now) }
{
    match list_of(alloc, value)? {
        [kind, text] => Ok((locator_kind(alloc, kind)?, item_text(alloc, text, 1)?)),
        _ => Err(unlike(alloc, value, Wanted::Locator)),
    }
}

#[tactic(auto, using(document_values::proofs::Ways::fails_outside))]
fn optional_locator(alloc: Global, object: &Value) -> Result<Option<(Locator, Text)>, ReadError>
    ensures read { Reads (λ l. l) result
        (where_present counted_locator_form (codes "locator") (view object.now)) }
    ensures fault { Faults result (view object.now) }
{
    match object.get("locator") {
        None => Ok(None),
        Some(member) => match locator_of(alloc, member) {
            Ok(locator) => Ok(Some(locator)),
            Err(error) => Err(error.under(alloc, "locator")),
        },
    }
}

// ---- states

/// What a state is.
const STATES: &[(&str, ())] = &[
    ("choose", ()),
    ("{\"names\": [..]}", ()),
    ("{\"suffix\": n}", ()),
];

fn state_named(name: &str) -> Option<DisambiguateState>
    ensures { result ≡ state_named name.now }
{
    match name {
        "choose" => Some(DisambiguateState::Choose),
        _ => None,
    }
}

#[tactic(auto, unfolding(crate::specs::TaskForm::names_state))]
fn names_state_of(alloc: Global, value: &Value) -> Result<DisambiguateState, ReadError>
    ensures read { Reads (λ s. s) result (names_state (view value.now)) }
    ensures fault { Faults result (view value.now) }
{
    let object = object_with(alloc, &["names"], value)?;
    let forms = names_at(alloc, NAME_FORMS, object, "names")?;
    Ok(DisambiguateState::NameDisambiguation(NameDisambiguationProperties {
        forms: Seq::new(forms),
    }))
}

#[tactic(auto, unfolding(crate::specs::TaskForm::suffix_state))]
fn suffix_state_of(alloc: Global, value: &Value) -> Result<DisambiguateState, ReadError>
    ensures read { Reads (λ s. s) result (suffix_state (view value.now)) }
    ensures fault { Faults result (view value.now) }
{
    let object = object_with(alloc, &["suffix"], value)?;
    Ok(DisambiguateState::YearSuffix(whole_at(alloc, object, "suffix")?))
}

fn object_state_of(alloc: Global, value: &Value) -> Result<DisambiguateState, ReadError>
    ensures read { Reads (λ s. s) result (object_state (view value.now)) }
    ensures fault { Faults result (view value.now) }
{
    if value.get("names").is_some() {
        return names_state_of(alloc, value);
    }
    suffix_state_of(alloc, value)
}

#[tactic(auto, unfolding(crate::specs::TaskForm::state_form))]
fn state_of(alloc: Global, value: &Value) -> Result<DisambiguateState, ReadError>
    ensures read { Reads (λ s. s) result (state_form (view value.now)) }
    ensures fault { Faults result (view value.now) }
{
    match value.as_str() {
        Some(name) => match state_named(name) {
            Some(state) => Ok(state),
            None => Err(unnamed(alloc, value, STATES)),
        },
        None => object_state_of(alloc, value),
    }
}

/// The state under the key `state`; none where the key is absent.
#[tactic(auto, using(document_values::proofs::Ways::fails_outside))]
fn state_at(alloc: Global, object: &Value) -> Result<DisambiguateState, ReadError>
    ensures read { Reads (λ s. s) result
        (optional states.None state_form (codes "state") (view object.now)) }
    ensures fault { Faults result (view object.now) }
{
    match object.get("state") {
        None => Ok(DisambiguateState::None),
        Some(member) => state_of(alloc, member).map_err(|error| error.under(alloc, "state")),
    }
}

// ---- means

#[tactic(auto, unfolding(crate::specs::TaskForm::names_form))]
fn names_of(alloc: Global, object: &Value) -> Result<NameDisambiguationProperties, ReadError>
    ensures read { Reads (λ n. n) result (names_form (view object.now)) }
    ensures fault { Faults result (view object.now) }
{
    let forms = names_at(alloc, NAME_FORMS, object, "names")?;
    Ok(NameDisambiguationProperties {
        forms: Seq::new(forms),
    })
}

/// The least forms of names under the key `names`, if it is there.
fn least_names(
    alloc: Global,
    object: &Value,
) -> Result<Option<NameDisambiguationProperties>, ReadError>
    ensures read { Reads (λ n. n) result (least_names (view object.now)) }
    ensures fault { Faults result (view object.now) }
{
    if object.get("names").is_some() {
        return Ok(Some(names_of(alloc, object)?));
    }
    Ok(None)
}

// ---- tasks

#[tactic(auto, unfolding(crate::specs::TaskForm::standing_form))]
fn standing_of(alloc: Global, object: &Value) -> Result<Standing, ReadError>
    ensures read { Reads (λ s. s) result (standing_form (view object.now)) }
    ensures fault { Faults result (view object.now) }
{
    let note_number = optional_number(alloc, object, "note")?;
    let first_note_number = optional_number(alloc, object, "first_note")?;
    let is_near_note = flag(alloc, object, "near_note")?;
    let is_first = flag(alloc, object, "first")?;
    let ibid = name_or(alloc, REPEATS, object, "repeats", IbidState::Different)?;
    let citation_number = whole_at(alloc, object, "number")?;
    let locator = optional_locator(alloc, object)?;
    let disambiguation = state_at(alloc, object)?;
    let names = least_names(alloc, object)?;
    let choose = flag(alloc, object, "choose")?;
    let suffix = optional_number(alloc, object, "suffix")?;
    let identifier_usage = name_or(alloc, USAGES, object, "usage", IdentifierUsage::None)?;
    Ok(Standing {
        note_number,
        first_note_number,
        is_near_note,
        is_first,
        ibid,
        citation_number,
        locator,
        disambiguation,
        means: Means {
            names,
            choose,
            suffix,
        },
        identifier_usage,
    })
}

#[tactic(auto, unfolding(crate::specs::TaskForm::cite_task_form))]
fn cite_part(alloc: Global, value: &Value) -> Result<TaskPart, ReadError>
    ensures read { Reads (λ p. p) result (cite_task_form (view value.now)) }
    ensures fault { Faults result (view value.now) }
{
    let object = object_with(
        alloc,
        &[
            "kind",
            "style",
            "locale",
            "entry",
            "note",
            "first_note",
            "near_note",
            "first",
            "repeats",
            "number",
            "locator",
            "state",
            "names",
            "choose",
            "suffix",
            "usage",
            "place",
            "purpose",
            "verdict",
        ],
        value,
    )?;
    let standing = standing_of(alloc, object)?;
    let purpose = optional_name(alloc, PURPOSES, object, "purpose")?;
    let verdict = optional_name(alloc, VERDICTS, object, "verdict")?;
    Ok(TaskPart::Cite(standing, purpose, verdict))
}

#[tactic(auto, unfolding(crate::specs::TaskForm::item_task_form))]
fn item_part(alloc: Global, value: &Value) -> Result<TaskPart, ReadError>
    ensures read { Reads (λ p. p) result (item_task_form (view value.now)) }
    ensures fault { Faults result (view value.now) }
{
    let object = object_with(
        alloc,
        &[
            "kind",
            "style",
            "locale",
            "entry",
            "note",
            "first_note",
            "near_note",
            "first",
            "repeats",
            "number",
            "locator",
            "state",
            "names",
            "choose",
            "suffix",
            "usage",
        ],
        value,
    )?;
    Ok(TaskPart::Item(standing_of(alloc, object)?))
}

#[tactic(auto, unfolding(crate::specs::TaskForm::date_task_form))]
fn date_part(alloc: Global, value: &Value) -> Result<TaskPart, ReadError>
    ensures read { Reads (λ p. p) result (date_task_form (view value.now)) }
    ensures fault { Faults result (view value.now) }
{
    let object = object_with(
        alloc,
        &["kind", "style", "locale", "entry", "place", "suffix"],
        value,
    )?;
    Ok(TaskPart::Date(optional_number(alloc, object, "suffix")?))
}

fn part_of(alloc: Global, value: &Value) -> Result<TaskPart, ReadError>
    ensures read { Reads (λ p. p) result (part_form (view value.now)) }
    ensures fault { Faults result (view value.now) }
{
    match name_at(alloc, KINDS, value, "kind")? {
        TaskKind::Cite => cite_part(alloc, value),
        TaskKind::Item => item_part(alloc, value),
        TaskKind::Date => date_part(alloc, value),
    }
}

/// The task that the value is.
///
/// # Errors
///
/// Where the value is of another form, which is refused by its place, and where memory is refused.
#[tactic(auto, unfolding(crate::specs::TaskForm::key_form))]
pub fn key_of_task(alloc: Global, value: &Value) -> Result<TaskKey, ReadError>
    ensures read { Reads (λ k. k) result (key_form (view value.now)) }
    ensures fault { Faults result (view value.now) }
{
    let part = part_of(alloc, value)?;
    let style = held_text_at(alloc, value, "style")?;
    let locale = held_text_at(alloc, value, "locale")?;
    let entry = held_text_at(alloc, value, "entry")?;
    let place = optional_place(alloc, value)?;
    Ok(TaskKey {
        style,
        locale,
        entry,
        place,
        part,
    })
}

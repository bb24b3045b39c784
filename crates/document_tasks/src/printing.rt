//! Tasks as JSON.
ghost use Rattle.std.specs.Prelude.{
  ◌≡◌,
  ◌∷◌,
  [],
  Some,
  IfOk,
  OnOk,
  codes,
  map,
  option_map,
  string_bytes,
};
ghost use Rattle.serde_json.specs.Data.{array, item, no_items, string, put};
ghost use Rattle.serde_json.specs.Read.{read};
ghost use Rattle.serde_json.specs.View.{members_view, view};
ghost use Rattle.serde_json.specs.Written.{compact_text};
ghost use Rattle.document_tasks.specs.ReadBack.{TasksReadBack};
ghost use Rattle.document_tasks.specs.TaskNames.{purpose_name, verdict_name};
ghost use Rattle.document_tasks.specs.TaskData.{
  count_data,
  forms_data,
  locator_data,
  means_fields,
  names_data,
  one_member,
  part_fields,
  place_data,
  put_fields,
  put_if,
  standing_fields,
  state_data,
  task_data,
  true_if,
};

use crate::task_names::{
    form_name, locator_name, purpose_name, repeats_name, usage_name, verdict_name,
};
use csl_base::names::{DisambiguatedNameForm, NameDisambiguationProperties};
use csl_base::taxonomy::Locator;
use csl_base::text::Text;
use driver_lookup::means::Means;
use driver_lookup::purpose::CitePurpose;
use driver_lookup::state::{CollapseVerdict, DisambiguateState};
use host_memo::key::{Standing, TaskKey, TaskPart};
use serde_json::{Map, Value};
use std::alloc::{AllocError, Global};

// ---- what stands under the keys

fn count_value(count: Option<usize>) -> Option<Value>
    ensures { option_map view result ≡ option_map count_data count }
{
    match count {
        Some(count) => Some(Value::from(count)),
        None => None,
    }
}

fn true_value(truth: bool) -> Option<Value>
    ensures { option_map view result ≡ true_if truth }
{
    if truth { Some(Value::from(true)) } else { None }
}

fn name_value(alloc: Global, name: Option<&str>) -> Result<Option<Value>, AllocError>
    ensures { IfOk result (λ v. option_map view v ≡ option_map (λ n. string n.now) name.entry) }
{
    match name {
        Some(name) => Ok(Some(Value::try_from_str(alloc, name)?)),
        None => Ok(None),
    }
}

fn purpose_value(alloc: Global, purpose: Option<CitePurpose>) -> Result<Option<Value>, AllocError>
    ensures { IfOk result
        (λ v. option_map view v ≡ option_map (λ p. string (purpose_name p)) purpose) }
{
    match purpose {
        Some(purpose) => Ok(Some(Value::try_from_str(alloc, purpose_name(purpose))?)),
        None => Ok(None),
    }
}

fn verdict_value(
    alloc: Global,
    verdict: Option<CollapseVerdict>,
) -> Result<Option<Value>, AllocError>
    ensures { IfOk result
        (λ v. option_map view v ≡ option_map (λ d. string (verdict_name d)) verdict) }
{
    match verdict {
        Some(verdict) => Ok(Some(Value::try_from_str(alloc, verdict_name(verdict))?)),
        None => Ok(None),
    }
}

fn pair_value(alloc: Global, first: Value, second: Value) -> Result<Value, AllocError>
    ensures { IfOk result (λ v. view v ≡ array (item (view first) (item (view second) no_items))) }
{
    let mut items = Vec::new(alloc);
    items.push(first)?;
    items.push(second)?;
    Ok(Value::from(items))
}

fn place_value(alloc: Global, place: Option<(usize, usize)>) -> Result<Option<Value>, AllocError>
    ensures { IfOk result (λ v. option_map view v ≡ option_map place_data place) }
{
    match place {
        Some((request, item)) => Ok(Some(pair_value(
            alloc,
            Value::from(request),
            Value::from(item),
        )?)),
        None => Ok(None),
    }
}

fn locator_value(
    alloc: Global,
    locator: &Option<(Locator, Text)>,
) -> Result<Option<Value>, AllocError>
    ensures { IfOk result (λ v. option_map view v ≡ option_map locator_data locator.now) }
{
    match locator {
        Some((kind, text)) => {
            let kind = Value::try_from_str(alloc, locator_name(*kind))?;
            let text = Value::try_from_str(alloc, text.as_str())?;
            Ok(Some(pair_value(alloc, kind, text)?))
        }
        None => Ok(None),
    }
}

fn forms_value(alloc: Global, forms: &[DisambiguatedNameForm]) -> Result<Value, AllocError>
    ensures { IfOk result (λ v. view v ≡ forms_data forms.now) }
{
    let mut items = Vec::new(alloc);
    for form in forms {
        items.push(Value::try_from_str(alloc, form_name(*form))?)?;
    }
    Ok(Value::from(items))
}

fn names_value(
    alloc: Global,
    names: &Option<NameDisambiguationProperties>,
) -> Result<Option<Value>, AllocError>
    ensures { IfOk result (λ v. option_map view v ≡ option_map names_data names.now) }
{
    match names {
        Some(names) => Ok(Some(forms_value(alloc, names.forms.as_slice())?)),
        None => Ok(None),
    }
}

/// An object of one member.
fn one_member(alloc: Global, key: &str, value: Value) -> Result<Value, AllocError>
    ensures { IfOk result (λ v. view v ≡ one_member key.now (view value)) }
{
    let mut members = Map::new(alloc);
    serde_json::put(&mut members, alloc, key, value)?;
    Ok(Value::from(members))
}

fn state_value(alloc: Global, state: &DisambiguateState) -> Result<Option<Value>, AllocError>
    ensures { IfOk result (λ v. option_map view v ≡ state_data state.now) }
{
    match state {
        DisambiguateState::None => Ok(None),
        DisambiguateState::NameDisambiguation(names) => {
            let forms = forms_value(alloc, names.forms.as_slice())?;
            Ok(Some(one_member(alloc, "names", forms)?))
        }
        DisambiguateState::Choose => Ok(Some(Value::try_from_str(alloc, "choose")?)),
        DisambiguateState::YearSuffix(suffix) => {
            let suffix = Value::from(*suffix);
            Ok(Some(one_member(alloc, "suffix", suffix)?))
        }
    }
}

// ---- the fields

/// Puts a value under a key, if there is one.
fn put_if(
    members: &mut Map<String, Value>,
    alloc: Global,
    key: &str,
    value: Option<Value>,
) -> Result<(), AllocError>
    ensures { OnOk result (members_view members.new.entries
        ≡ put_if key.now (option_map view value) (members_view members.old.entries)) }
{
    match value {
        Some(value) => serde_json::put(members, alloc, key, value),
        None => Ok(()),
    }
}

fn put_text(
    members: &mut Map<String, Value>,
    alloc: Global,
    key: &str,
    text: &str,
) -> Result<(), AllocError>
    ensures { OnOk result (members_view members.new.entries
        ≡ put key.now (string text.now) (members_view members.old.entries)) }
{
    let text = Value::try_from_str(alloc, text)?;
    serde_json::put(members, alloc, key, text)
}

fn put_means(
    members: &mut Map<String, Value>,
    alloc: Global,
    means: &Means,
) -> Result<(), AllocError>
    ensures { OnOk result (members_view members.new.entries
        ≡ put_fields (means_fields means.now) (members_view members.old.entries)) }
{
    let names = names_value(alloc, &means.names)?;
    put_if(members, alloc, "names", names)?;
    put_if(members, alloc, "choose", true_value(means.choose))?;
    put_if(members, alloc, "suffix", count_value(means.suffix))
}

fn put_standing(
    members: &mut Map<String, Value>,
    alloc: Global,
    standing: &Standing,
) -> Result<(), AllocError>
    ensures { OnOk result (members_view members.new.entries
        ≡ put_fields (standing_fields standing.now) (members_view members.old.entries)) }
{
    put_if(members, alloc, "note", count_value(standing.note_number))?;
    put_if(
        members,
        alloc,
        "first_note",
        count_value(standing.first_note_number),
    )?;
    put_if(
        members,
        alloc,
        "near_note",
        true_value(standing.is_near_note),
    )?;
    put_if(members, alloc, "first", true_value(standing.is_first))?;
    let repeats = name_value(alloc, repeats_name(standing.ibid))?;
    put_if(members, alloc, "repeats", repeats)?;
    serde_json::put(
        members,
        alloc,
        "number",
        Value::from(standing.citation_number),
    )?;
    let locator = locator_value(alloc, &standing.locator)?;
    put_if(members, alloc, "locator", locator)?;
    let state = state_value(alloc, &standing.disambiguation)?;
    put_if(members, alloc, "state", state)?;
    let usage = name_value(alloc, usage_name(standing.identifier_usage))?;
    put_if(members, alloc, "usage", usage)?;
    put_means(members, alloc, &standing.means)
}

fn put_part(
    members: &mut Map<String, Value>,
    alloc: Global,
    part: &TaskPart,
) -> Result<(), AllocError>
    ensures { OnOk result (members_view members.new.entries
        ≡ put_fields (part_fields part.now) (members_view members.old.entries)) }
{
    match part {
        TaskPart::Cite(standing, purpose, verdict) => {
            put_text(members, alloc, "kind", "cite")?;
            let purpose = purpose_value(alloc, *purpose)?;
            put_if(members, alloc, "purpose", purpose)?;
            let verdict = verdict_value(alloc, *verdict)?;
            put_if(members, alloc, "verdict", verdict)?;
            put_standing(members, alloc, standing)
        }
        TaskPart::Item(standing) => {
            put_text(members, alloc, "kind", "item")?;
            put_standing(members, alloc, standing)
        }
        TaskPart::Date(suffix) => {
            put_text(members, alloc, "kind", "date")?;
            put_if(members, alloc, "suffix", count_value(*suffix))
        }
    }
}

/// The task as a JSON value.
///
/// # Errors
///
/// Where memory is refused.
pub fn task_value(alloc: Global, task: &TaskKey) -> Result<Value, AllocError>
    ensures { IfOk result (λ v. view v ≡ task_data task.now) }
{
    let mut members = Map::new(alloc);
    put_text(&mut members, alloc, "style", task.style.as_str())?;
    put_text(&mut members, alloc, "locale", task.locale.as_str())?;
    put_text(&mut members, alloc, "entry", task.entry.as_str())?;
    let place = place_value(alloc, task.place)?;
    put_if(&mut members, alloc, "place", place)?;
    put_part(&mut members, alloc, &task.part)?;
    Ok(Value::from(members))
}

/// The task as JSON, without spaces between its parts; it reads as the value of the task again.
///
/// # Errors
///
/// Where memory is refused.
#[tactic(auto, using(crate::proofs::Plain::task_has_no_float, crate::proofs::Plain::task_nests_little))]
pub fn print_task(alloc: Global, task: &TaskKey) -> Result<String, AllocError>
    ensures text { IfOk result (λ s. string_bytes s ≡ compact_text (task_data task.now)) }
    ensures reads_back { IfOk result (λ s. read (string_bytes s) ≡ Some (task_data task.now)) }
{
    task_value(alloc, task)?.to_string(alloc)
}

/// The value of a task reads as the task, if it isn't an item at a place, which nothing asks for.
#[tactic(auto, using(crate::proofs::ReadBack::tasks_read_back))]
pub fn tasks_read_back()
    ensures { TasksReadBack }
{}

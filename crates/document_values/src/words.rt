//! Readers of the parts of a JSON value. Each refuses, as a document, what isn't of its form, and
//! says where it is wrong.
ghost use Rattle.std.specs.Prelude.{
  ◌≡◌,
  ◌≤ℤ◌,
  map,
  Some,
  None,
  IfOk,
  MatchOption,
  option_map,
  string_bytes,
  true,
  false,
};
ghost use Rattle.std.specs.List.{list_all};
ghost use Rattle.serde_json.specs.Data.{array, no_items};
ghost use Rattle.serde_json.specs.View.{view, items_view, members_view};
ghost use Rattle.serde_json.specs.Find.{as_array, as_str, as_bool};
ghost use Rattle.value_styles.specs.StyleView.{code_view};
ghost use Rattle.document_values.specs.Words.{
  all_items,
  object_with,
  required,
  optional,
  where_present,
  flag,
  is_one_of,
  items_of_key,
  member_keys,
  optional_items,
  whole,
  whole_between,
};
ghost use Rattle.document_values.specs.Names.{one_of, rows_view};
ghost use Rattle.document_values.specs.Reads.{Faults, Reads};

use crate::error::ReadError;
use crate::fault::Wanted;
use crate::names::named;
use crate::refusals::{lacking, unknown, unlike, unnamed};
use csl_base::locale::LocaleCode;
use serde_json::{Map, Value};
use std::alloc::Global;

fn is_one_of(keys: &[&str], text: &str) -> bool
    ensures { result ≡ is_one_of (map (λ k. k.now) keys.now) text.now }
{
    for key in keys {
        if text == *key {
            return true;
        }
    }
    false
}

/// The first key of the object that is none of these.
fn unknown_key<'v>(keys: &[&str], members: &'v Map<String, Value>) -> Option<&'v str>
    ensures { MatchOption result
        (list_all (is_one_of (map (λ k. k.now) keys.now))
        (member_keys (members_view members.now.entries)) ≡ true)
        (λ k. (list_all (is_one_of (map (λ k. k.now) keys.now))
        (member_keys (members_view members.now.entries)) ≡ false)
        × (is_one_of (member_keys (members_view members.now.entries)) k.now ≡ true)) }
{
    for key in members.keys() {
        if !is_one_of(keys, key.as_str()) {
            return Some(key.as_str());
        }
    }
    None
}

/// The value, which has to be an object with no keys but these.
pub fn object_with<'v>(
    alloc: Global,
    keys: &[&str],
    value: &'v Value,
) -> Result<&'v Value, ReadError>
    ensures read { Reads (λ v. view v.now) result
        (object_with (map (λ k. k.now) keys.now) (view value.now)) }
    ensures fault { Faults result (view value.now) }
    ensures same { IfOk result (λ v. v.now ≡ value.now) }
{
    let Some(members) = value.as_object() else {
        return Err(unlike(alloc, value, Wanted::Object));
    };
    match unknown_key(keys, members) {
        None => Ok(value),
        Some(key) => Err(unknown(alloc, value, key, keys)),
    }
}

/// The member of the key, which has to be there.
pub fn required<'v>(alloc: Global, value: &'v Value, key: &str) -> Result<&'v Value, ReadError>
    ensures read { Reads (λ v. view v.now) result (required Some key.now (view value.now)) }
    ensures fault { Faults result (view value.now) }
{
    match value.get(key) {
        Some(member) => Ok(member),
        None => Err(lacking(alloc, value, key)),
    }
}

/// The text that the value is.
fn text_in(alloc: Global, value: &Value) -> Result<&str, ReadError>
    ensures read { Reads (λ s. s.now) result (as_str (view value.now)) }
    ensures fault { Faults result (view value.now) }
{
    match value.as_str() {
        Some(text) => Ok(text),
        None => Err(unlike(alloc, value, Wanted::Text)),
    }
}

/// The text of the key, which has to be there.
#[tactic(auto, using(crate::proofs::Ways::fails_outside))]
pub fn required_text<'v>(alloc: Global, value: &'v Value, key: &str) -> Result<&'v str, ReadError>
    ensures read { Reads (λ s. s.now) result (required as_str key.now (view value.now)) }
    ensures fault { Faults result (view value.now) }
{
    match value.get(key) {
        Some(member) => text_in(alloc, member).map_err(|error| error.under(alloc, key)),
        None => Err(lacking(alloc, value, key)),
    }
}

/// The items of the value, which has to be a list.
pub fn list_of(alloc: Global, value: &Value) -> Result<&[Value], ReadError>
    ensures read { Reads (λ v. items_view v.now) result (as_array (view value.now)) }
    ensures fault { Faults result (view value.now) }
{
    match value.as_array() {
        Some(items) => Ok(items.as_slice()),
        None => Err(unlike(alloc, value, Wanted::List)),
    }
}

/// The list of the key, which has to be there.
#[tactic(auto, using(crate::proofs::Ways::fails_outside))]
pub fn required_list<'v>(
    alloc: Global,
    value: &'v Value,
    key: &str,
) -> Result<&'v [Value], ReadError>
    ensures read { Reads (λ v. items_view v.now) result
        (required as_array key.now (view value.now)) }
    ensures fault { Faults result (view value.now) }
{
    match value.get(key) {
        Some(member) => list_of(alloc, member).map_err(|error| error.under(alloc, key)),
        None => Err(lacking(alloc, value, key)),
    }
}

/// The items of the key's list; none where the key is absent.
#[tactic(auto, using(crate::proofs::Ways::fails_outside))]
pub fn optional_list<'v>(
    alloc: Global,
    value: &'v Value,
    key: &str,
) -> Result<&'v [Value], ReadError>
    ensures read { Reads (λ v. items_view v.now) result
        (optional no_items as_array key.now (view value.now)) }
    ensures fault { Faults result (view value.now) }
{
    match value.get(key) {
        None => Ok(&[]),
        Some(member) => list_of(alloc, member).map_err(|error| error.under(alloc, key)),
    }
}

/// The truth value that the value is.
fn truth_of(alloc: Global, value: &Value) -> Result<bool, ReadError>
    ensures read { Reads (λ b. b) result (as_bool (view value.now)) }
    ensures fault { Faults result (view value.now) }
{
    match value.as_bool() {
        Some(truth) => Ok(truth),
        None => Err(unlike(alloc, value, Wanted::Truth)),
    }
}

/// The truth value of the key; false where the key is absent.
#[tactic(auto, using(crate::proofs::Ways::fails_outside))]
pub fn flag(alloc: Global, value: &Value, key: &str) -> Result<bool, ReadError>
    ensures read { Reads (λ b. b) result (flag key.now (view value.now)) }
    ensures fault { Faults result (view value.now) }
{
    match value.get(key) {
        None => Ok(false),
        Some(member) => truth_of(alloc, member).map_err(|error| error.under(alloc, key)),
    }
}

/// The truth value of the key, if the key is there.
#[tactic(auto, using(crate::proofs::Ways::fails_outside))]
pub fn optional_flag(alloc: Global, value: &Value, key: &str) -> Result<Option<bool>, ReadError>
    ensures read { Reads (λ b. b) result (where_present as_bool key.now (view value.now)) }
    ensures fault { Faults result (view value.now) }
{
    match value.get(key) {
        None => Ok(None),
        Some(member) => match truth_of(alloc, member) {
            Ok(truth) => Ok(Some(truth)),
            Err(error) => Err(error.under(alloc, key)),
        },
    }
}

// ---- texts

/// A copy of the text that the value is.
pub fn text_of(alloc: Global, value: &Value) -> Result<String, ReadError>
    ensures read { Reads string_bytes result (as_str (view value.now)) }
    ensures fault { Faults result (view value.now) }
{
    match value.as_str() {
        Some(text) => Ok(String::from_str(alloc, text)?),
        None => Err(unlike(alloc, value, Wanted::Text)),
    }
}

/// A copy of the text of the key, which has to be there.
#[tactic(auto, using(crate::proofs::Ways::fails_outside))]
pub fn text_at(alloc: Global, value: &Value, key: &str) -> Result<String, ReadError>
    ensures read { Reads string_bytes result (required as_str key.now (view value.now)) }
    ensures fault { Faults result (view value.now) }
{
    match value.get(key) {
        Some(member) => text_of(alloc, member).map_err(|error| error.under(alloc, key)),
        None => Err(lacking(alloc, value, key)),
    }
}

/// A copy of the text of the key, if the key is there.
#[tactic(auto, using(crate::proofs::Ways::fails_outside))]
pub fn optional_text(alloc: Global, value: &Value, key: &str) -> Result<Option<String>, ReadError>
    ensures read { Reads (option_map string_bytes) result
        (where_present as_str key.now (view value.now)) }
    ensures fault { Faults result (view value.now) }
{
    match value.get(key) {
        None => Ok(None),
        Some(member) => match text_of(alloc, member) {
            Ok(text) => Ok(Some(text)),
            Err(error) => Err(error.under(alloc, key)),
        },
    }
}

/// The language of the key, if the key is there.
#[tactic(auto, using(crate::proofs::Ways::fails_outside))]
pub fn optional_code(
    alloc: Global,
    value: &Value,
    key: &str,
) -> Result<Option<LocaleCode>, ReadError>
    ensures read { Reads (option_map code_view) result
        (where_present as_str key.now (view value.now)) }
    ensures fault { Faults result (view value.now) }
{
    match value.get(key) {
        None => Ok(None),
        Some(member) => match text_of(alloc, member) {
            Ok(text) => Ok(Some(LocaleCode(text))),
            Err(error) => Err(error.under(alloc, key)),
        },
    }
}

// ---- numbers

/// The whole number that the value is.
fn whole_of(alloc: Global, value: &Value) -> Result<usize, ReadError>
    ensures read { Reads (λ n. n) result (whole (view value.now)) }
    ensures fault { Faults result (view value.now) }
{
    match value.as_u64() {
        Some(number) => Ok(number as usize),
        None => Err(unlike(alloc, value, Wanted::Whole)),
    }
}

/// The whole number of the key, if the key is there.
#[tactic(auto, using(crate::proofs::Ways::fails_outside))]
pub fn optional_number(alloc: Global, value: &Value, key: &str) -> Result<Option<usize>, ReadError>
    ensures read { Reads (λ n. n) result (where_present whole key.now (view value.now)) }
    ensures fault { Faults result (view value.now) }
{
    match value.get(key) {
        None => Ok(None),
        Some(member) => match whole_of(alloc, member) {
            Ok(number) => Ok(Some(number)),
            Err(error) => Err(error.under(alloc, key)),
        },
    }
}

/// The whole number of the key, or the default where the key is absent.
#[tactic(auto, using(crate::proofs::Ways::fails_outside))]
pub fn number_or(
    alloc: Global,
    value: &Value,
    key: &str,
    default: usize,
) -> Result<usize, ReadError>
    ensures read { Reads (λ n. n) result (optional default whole key.now (view value.now)) }
    ensures fault { Faults result (view value.now) }
{
    match value.get(key) {
        None => Ok(default),
        Some(member) => whole_of(alloc, member).map_err(|error| error.under(alloc, key)),
    }
}

/// The whole number that the value is, which may not be below `low` nor above `high`. What is asked
/// for goes into the fault.
pub fn whole_between(
    alloc: Global,
    value: &Value,
    low: i64,
    high: i64,
    wanted: Wanted,
) -> Result<i64, ReadError>
    ensures read { Reads (λ n. n) result (whole_between low high (view value.now)) }
    ensures fault { Faults result (view value.now) }
    ensures above { IfOk result (λ n. low ≤ℤ n) }
    ensures below { IfOk result (λ n. n ≤ℤ high) }
{
    let Some(number) = value.as_i64() else {
        return Err(unlike(alloc, value, wanted));
    };
    if low <= number && number <= high {
        Ok(number)
    } else {
        Err(unlike(alloc, value, wanted))
    }
}

// ---- names

/// What the value names, by a table.
pub fn one_of<T: Copy>(alloc: Global, rows: &[(&str, T)], value: &Value) -> Result<T, ReadError>
    ensures read { Reads (λ x. x) result (one_of (rows_view rows.now) (view value.now)) }
    ensures fault { Faults result (view value.now) }
{
    let Some(name) = value.as_str() else {
        return Err(unnamed(alloc, value, rows));
    };
    match named(rows, name) {
        Some(found) => Ok(found),
        None => Err(unnamed(alloc, value, rows)),
    }
}

/// What the key's text names, by a table; the key has to be there.
#[tactic(auto, using(crate::proofs::Ways::fails_outside))]
pub fn name_at<T: Copy>(
    alloc: Global,
    rows: &[(&str, T)],
    value: &Value,
    key: &str,
) -> Result<T, ReadError>
    ensures read { Reads (λ x. x) result
        (required (one_of (rows_view rows.now)) key.now (view value.now)) }
    ensures fault { Faults result (view value.now) }
{
    match value.get(key) {
        Some(member) => match one_of(alloc, rows, member) {
            Ok(found) => Ok(found),
            Err(error) => Err(error.under(alloc, key)),
        },
        None => Err(lacking(alloc, value, key)),
    }
}

/// What the key's text names, by a table, if the key is there.
#[tactic(auto, using(crate::proofs::Ways::fails_outside))]
pub fn optional_name<T: Copy>(
    alloc: Global,
    rows: &[(&str, T)],
    value: &Value,
    key: &str,
) -> Result<Option<T>, ReadError>
    ensures read { Reads (λ x. x) result
        (where_present (one_of (rows_view rows.now)) key.now (view value.now)) }
    ensures fault { Faults result (view value.now) }
{
    match value.get(key) {
        None => Ok(None),
        Some(member) => match one_of(alloc, rows, member) {
            Ok(found) => Ok(Some(found)),
            Err(error) => Err(error.under(alloc, key)),
        },
    }
}

/// What the key's text names, by a table, or the default where the key is absent.
#[tactic(auto, using(crate::proofs::Ways::fails_outside))]
pub fn name_or<T: Copy>(
    alloc: Global,
    rows: &[(&str, T)],
    value: &Value,
    key: &str,
    default: T,
) -> Result<T, ReadError>
    ensures read { Reads (λ x. x) result
        (optional default (one_of (rows_view rows.now)) key.now (view value.now)) }
    ensures fault { Faults result (view value.now) }
{
    match value.get(key) {
        None => Ok(default),
        Some(member) => match one_of(alloc, rows, member) {
            Ok(found) => Ok(found),
            Err(error) => Err(error.under(alloc, key)),
        },
    }
}

/// What the items name, by a table.
#[tactic(auto, using(crate::proofs::Ways::fails_outside, crate::proofs::Ways::item_there))]
pub fn all_named<T: Copy + Drop>(
    alloc: Global,
    rows: &[(&str, T)],
    items: &[Value],
) -> Result<Vec<T>, ReadError>
    ensures read { Reads (λ v. v.items) result
        (all_items (one_of (rows_view rows.now)) (items_view items.now)) }
    ensures fault { Faults result (array (items_view items.now)) }
{
    let mut found = Vec::new(alloc);
    for (place, item) in items.iter().enumerate() {
        match one_of(alloc, rows, item) {
            Ok(named) => found.push(named)?,
            Err(error) => return Err(error.in_item(place)),
        }
    }
    Ok(found)
}

/// What the items of the key's list name, by a table; the key has to be there.
#[tactic(auto, using(crate::proofs::Ways::fails_outside))]
pub fn names_at<T: Copy + Drop>(
    alloc: Global,
    rows: &[(&str, T)],
    value: &Value,
    key: &str,
) -> Result<Vec<T>, ReadError>
    ensures read { Reads (λ v. v.items) result
        (items_of_key (one_of (rows_view rows.now)) key.now (view value.now)) }
    ensures fault { Faults result (view value.now) }
{
    let list = required_list(alloc, value, key)?;
    match all_named(alloc, rows, list) {
        Ok(named) => Ok(named),
        Err(error) => Err(error.under(alloc, key)),
    }
}

/// What the items of the key's list name, by a table; none where the key is absent.
#[tactic(auto, using(crate::proofs::Ways::fails_outside))]
pub fn optional_names<T: Copy + Drop>(
    alloc: Global,
    rows: &[(&str, T)],
    value: &Value,
    key: &str,
) -> Result<Vec<T>, ReadError>
    ensures read { Reads (λ v. v.items) result
        (optional_items (one_of (rows_view rows.now)) key.now (view value.now)) }
    ensures fault { Faults result (view value.now) }
{
    let list = optional_list(alloc, value, key)?;
    match all_named(alloc, rows, list) {
        Ok(named) => Ok(named),
        Err(error) => Err(error.under(alloc, key)),
    }
}

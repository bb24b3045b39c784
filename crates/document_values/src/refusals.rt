//! Refusals: the errors of values that aren't what is asked for.
ghost use Rattle.std.specs.Prelude.{◌≡◌, None, true};
ghost use Rattle.serde_json.specs.Data.{Data};
ghost use Rattle.serde_json.specs.View.{view};
ghost use Rattle.serde_json.specs.Find.{get};
ghost use Rattle.document_values.specs.Faults.{kind, has_key, IsFound};
ghost use Rattle.document_values.specs.Reads.{IsErrorOf};

use crate::error::ReadError;
use crate::fault::{Fault, Found, Wanted};
use serde_json::Value;
use std::alloc::{AllocError, Global};

fn kind_of(value: &Value) -> Found
    ensures { result ≡ kind (view value.now) }
{
    match value {
        Value::Null => Found::Null,
        Value::Bool(_) => Found::Boolean,
        Value::Number(_) => Found::Number,
        Value::String(_) => Found::Text,
        Value::Array(_) => Found::List,
        Value::Object(_) => Found::Object,
    }
}

/// The error of a value in which this was found, and something else is asked for.
fn refused(alloc: Global, found: Found, wanted: Wanted) -> ReadError
    ensures { (whole : Data) → IsFound found whole → IsErrorOf result whole }
{
    let fault = Fault {
        path: Vec::new(alloc),
        found,
        wanted,
    };
    match Box::new(alloc, fault) {
        Ok(fault) => ReadError::Document(fault),
        Err(_) => ReadError::OutOfMemory,
    }
}

/// The error of a value that isn't what is asked for.
#[tactic(auto, using(crate::proofs::Ways::kind_found))]
pub fn unlike(alloc: Global, value: &Value, wanted: Wanted) -> ReadError
    ensures { IsErrorOf result (view value.now) }
{
    refused(alloc, kind_of(value), wanted)
}

/// The error of a value that hasn't this key and has to have it.
pub fn lacking(alloc: Global, value: &Value, key: &str) -> ReadError
    requires { get key.now (view value.now) ≡ None }
    ensures { IsErrorOf result (view value.now) }
{
    if value.as_object().is_none() {
        return unlike(alloc, value, Wanted::Object);
    }
    match String::from_str(alloc, key) {
        Ok(key) => refused(alloc, Found::MissingKey(key), Wanted::MissingKey),
        Err(_) => ReadError::OutOfMemory,
    }
}

fn append(list: &mut String, name: &str) -> Result<(), AllocError> {
    if !list.is_empty() {
        list.push_str(", ")?;
    }
    list.push_str(name)?;
    Ok(())
}

/// The keys, with commas between.
fn listed_keys(alloc: Global, keys: &[&str]) -> Result<String, AllocError> {
    let mut list = String::new(alloc);
    for key in keys {
        append(&mut list, key)?;
    }
    Ok(list)
}

/// The names of a table, with commas between.
fn listed_names<T>(alloc: Global, rows: &[(&str, T)]) -> Result<String, AllocError> {
    let mut list = String::new(alloc);
    for row in rows {
        append(&mut list, row.0)?;
    }
    Ok(list)
}

/// The error of an object that has this key, which is none of those that are asked for.
pub fn unknown(alloc: Global, value: &Value, key: &str, keys: &[&str]) -> ReadError
    requires { has_key key.now (view value.now) ≡ true }
    ensures { IsErrorOf result (view value.now) }
{
    let Ok(known) = listed_keys(alloc, keys) else {
        return ReadError::OutOfMemory;
    };
    match String::from_str(alloc, key) {
        Ok(key) => refused(alloc, Found::UnknownKey(key), Wanted::KeyOf(known)),
        Err(_) => ReadError::OutOfMemory,
    }
}

/// The error of a value that is no name of the table.
pub fn unnamed<T>(alloc: Global, value: &Value, rows: &[(&str, T)]) -> ReadError
    ensures { IsErrorOf result (view value.now) }
{
    match listed_names(alloc, rows) {
        Ok(names) => unlike(alloc, value, Wanted::NameOf(names)),
        Err(_) => ReadError::OutOfMemory,
    }
}

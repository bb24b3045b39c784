//! Telling where a document is wrong.
ghost use Rattle.std.specs.Prelude.{◌≡◌, ◌++◌, IfOk, OnOk, string_bytes};
ghost use Rattle.std.specs.Fmt.{decimal};
ghost use Rattle.std.specs.List.{flat_map};
ghost use Rattle.std.specs.Str.{chars};
ghost use Rattle.document_requests.specs.Form.{form, value_in};
ghost use Rattle.document_answer.specs.FaultText.{
  escaped,
  fault_text,
  found_text,
  pointer_text,
  step_text,
  wanted_text,
};
ghost use Rattle.document_answer.specs.TellsFault.{TellsFault};

use crate::document::Document;
use crate::error::RunError;
use document_values::fault::{Fault, Found, Step, Wanted};
use serde_json::{Map, Value, put};
use std::alloc::{AllocError, Global};

fn push_number(text: &mut String, number: usize) -> Result<(), AllocError>
    ensures { OnOk result (string_bytes text.new ≡ string_bytes text.old ++ decimal number) }
{
    match write!(text, "{number}") {
        Ok(()) => Ok(()),
        Err(_) => Err(AllocError),
    }
}

// ---- the pointer

fn push_escaped(text: &mut String, c: char) -> Result<(), AllocError>
    ensures { OnOk result (string_bytes text.new ≡ string_bytes text.old ++ escaped c) }
{
    match c {
        '~' => text.push_str("~0"),
        '/' => text.push_str("~1"),
        c => text.push(c),
    }
}

fn push_key(text: &mut String, key: &str) -> Result<(), AllocError>
    ensures { OnOk result
        (string_bytes text.new ≡ string_bytes text.old ++ flat_map escaped (chars key.now)) }
{
    for c in key.chars() {
        push_escaped(text, c)?;
    }
    Ok(())
}

fn push_step(text: &mut String, step: &Step) -> Result<(), AllocError>
    ensures { OnOk result (string_bytes text.new ≡ string_bytes text.old ++ step_text step.now) }
{
    text.push_str("/")?;
    match step {
        Step::Key(key) => push_key(text, key.as_str()),
        Step::Item(place) => push_number(text, *place),
    }
}

fn push_way(text: &mut String, way: &[Step]) -> Result<(), AllocError>
    ensures { OnOk result (string_bytes text.new ≡ string_bytes text.old ++ pointer_text way.now) }
{
    match way {
        [] => Ok(()),
        [step, outer @ ..] => {
            push_way(text, outer)?;
            push_step(text, step)
        }
    }
}

// ---- what was found, and what is asked for

/// Appends words, and a name behind them.
fn push_named(text: &mut String, words: &str, name: &str) -> Result<(), AllocError>
    ensures { OnOk result
        (string_bytes text.new ≡ string_bytes text.old ++ (words.now ++ name.now)) }
{
    text.push_str(words)?;
    text.push_str(name)
}

/// Appends words, and a number behind them.
fn push_counted(text: &mut String, words: &str, number: usize) -> Result<(), AllocError>
    ensures { OnOk result
        (string_bytes text.new ≡ string_bytes text.old ++ (words.now ++ decimal number)) }
{
    text.push_str(words)?;
    push_number(text, number)
}

fn push_found(text: &mut String, found: &Found) -> Result<(), AllocError>
    ensures { OnOk result (string_bytes text.new ≡ string_bytes text.old ++ found_text found.now) }
{
    match found {
        Found::Null => text.push_str("null"),
        Found::Boolean => text.push_str("a truth value"),
        Found::Number => text.push_str("a number"),
        Found::Text => text.push_str("a text"),
        Found::List => text.push_str("a list"),
        Found::Object => text.push_str("an object"),
        Found::UnknownKey(key) => push_named(text, "unknown key ", key.as_str()),
        Found::MissingKey(key) => push_named(text, "missing key ", key.as_str()),
        Found::NoJson { line, column } => {
            push_counted(text, "no JSON from line ", *line)?;
            push_counted(text, ", column ", *column)
        }
        Found::NoUtf8 { byte } => push_counted(text, "no UTF-8 from byte ", *byte),
    }
}

fn push_wanted(text: &mut String, wanted: &Wanted) -> Result<(), AllocError>
    ensures { OnOk result
        (string_bytes text.new ≡ string_bytes text.old ++ wanted_text wanted.now) }
{
    match wanted {
        Wanted::Utf8 => text.push_str("UTF-8"),
        Wanted::Json => text.push_str("JSON"),
        Wanted::Text => text.push_str("a text"),
        Wanted::Truth => text.push_str("true or false"),
        Wanted::List => text.push_str("a list"),
        Wanted::Object => text.push_str("an object"),
        Wanted::Whole => text.push_str("a whole number from 0 to 18446744073709551615"),
        Wanted::Spacing => text.push_str("a whole number from -32768 to 32767"),
        Wanted::LineSpacing => text.push_str("a whole number from -32768 to 32767 that isn't 0"),
        Wanted::Year => text.push_str("a whole number from -2147483648 to 2147483647"),
        Wanted::Variable => text.push_str("the name of a variable"),
        Wanted::Term => text.push_str("the name of a term"),
        Wanted::Kind => text.push_str("one of text, number, date, names, group, choose"),
        Wanted::Condition => {
            text.push_str("disambiguate, a position, or an object that names a variable")
        }
        Wanted::Target => text.push_str("exactly one of the keys value, variable, macro, term"),
        Wanted::Person => text.push_str("a family name, or a family name and a given name"),
        Wanted::Locator => text.push_str("what the locator counts, and its text"),
        Wanted::Style => text.push_str("the name of a style that is there"),
        Wanted::Entry => text.push_str("the key of an entry that is there"),
        Wanted::MissingKey => text.push_str("this key"),
        Wanted::KeyOfCsl => text.push_str("this key only where rounds is csl"),
        Wanted::KeyOf(keys) => push_named(text, "one of the keys ", keys.as_str()),
        Wanted::NameOf(names) => push_named(text, "one of ", names.as_str()),
    }
}

// ---- the fault as JSON

fn found_in_words(alloc: Global, found: &Found) -> Result<String, AllocError>
    ensures { IfOk result (λ s. string_bytes s ≡ found_text found.now) }
{
    let mut text = String::new(alloc);
    push_found(&mut text, found)?;
    Ok(text)
}

fn wanted_in_words(alloc: Global, wanted: &Wanted) -> Result<String, AllocError>
    ensures { IfOk result (λ s. string_bytes s ≡ wanted_text wanted.now) }
{
    let mut text = String::new(alloc);
    push_wanted(&mut text, wanted)?;
    Ok(text)
}

fn pointer_of(alloc: Global, way: &[Step]) -> Result<String, AllocError>
    ensures { IfOk result (λ s. string_bytes s ≡ pointer_text way.now) }
{
    let mut text = String::new(alloc);
    push_way(&mut text, way)?;
    Ok(text)
}

/// The fault as JSON: its JSON Pointer (RFC 6901), what was found there, and what is asked for.
///
/// # Errors
/// Where memory is refused.
pub fn print_fault(alloc: Global, fault: &Fault) -> Result<String, AllocError>
    ensures { IfOk result (λ s. string_bytes s ≡ fault_text fault.now) }
{
    let found = Value::String(found_in_words(alloc, &fault.found)?);
    let pointer = Value::String(pointer_of(alloc, fault.path.as_slice())?);
    let wanted = Value::String(wanted_in_words(alloc, &fault.wanted)?);
    let mut object = Map::new(alloc);
    put(&mut object, alloc, "found", found)?;
    put(&mut object, alloc, "pointer", pointer)?;
    put(&mut object, alloc, "wanted", wanted)?;
    Value::Object(object).to_string(alloc)
}

/// The first fault of the bytes as JSON, where they are no document; and no text where they are
/// one.
///
/// # Errors
/// `OutOfMemory` where memory is refused, and no other.
pub fn print_fault_bytes(alloc: Global, bytes: &[u8]) -> Result<String, RunError>
    ensures { TellsFault result (form bytes.now) (value_in bytes.now) }
{
    match Document::first_fault(alloc, bytes)? {
        None => Ok(String::new(alloc)),
        Some(fault) => Ok(print_fault(alloc, &fault)?),
    }
}

//! What the names of a document stand for.
ghost use Rattle.std.specs.Prelude.{◌≡◌};
ghost use Rattle.serde_json.specs.View.{view};
ghost use Rattle.document_values.specs.Words.{name_form};
ghost use Rattle.document_values.specs.Names.{
  value_named,
  rows_view,
  variable_named,
  locator_term_named,
  term_named,
};
ghost use Rattle.document_values.specs.Reads.{Faults, Reads};

use crate::error::ReadError;
use crate::fault::Wanted;
use crate::refusals::unlike;
use crate::tables::{
    DATE_VARIABLES, LOCATORS, NAME_VARIABLES, NUMBER_VARIABLES, OTHER_TERMS, STANDARD_VARIABLES,
};
use csl_base::taxonomy::{Term, Variable};
use serde_json::Value;
use std::alloc::Global;

/// The value of a name: that of the first row that has the name.
pub fn named<T: Copy>(rows: &[(&str, T)], name: &str) -> Option<T>
    ensures { result ≡ value_named (rows_view rows.now) name.now }
{
    for row in rows {
        if row.0 == name {
            return Some(row.1);
        }
    }
    None
}

/// The variable of this name, of any kind.
pub fn variable_named(name: &str) -> Option<Variable>
    ensures { result ≡ variable_named name.now }
{
    if let Some(variable) = named(NAME_VARIABLES, name) {
        return Some(Variable::Name(variable));
    }
    if let Some(variable) = named(DATE_VARIABLES, name) {
        return Some(Variable::Date(variable));
    }
    if let Some(variable) = named(STANDARD_VARIABLES, name) {
        return Some(Variable::Standard(variable));
    }
    named(NUMBER_VARIABLES, name).map(Variable::Number)
}

/// The term of the locator that follows `locator-`.
fn locator_term_named(name: &str) -> Option<Term>
    ensures { result ≡ locator_term_named name.now }
{
    let kind = name.strip_prefix("locator-")?;
    named(LOCATORS, kind).map(Term::Locator)
}

/// The term of this name: one that is named after nothing else, or a locator's, or a number
/// variable's.
pub fn term_named(name: &str) -> Option<Term>
    ensures { result ≡ term_named name.now }
{
    if let Some(term) = named(OTHER_TERMS, name) {
        return Some(Term::Other(term));
    }
    if let Some(term) = locator_term_named(name) {
        return Some(term);
    }
    named(NUMBER_VARIABLES, name).map(Term::NumberVariable)
}

/// The term that the value names.
pub fn term_of(alloc: Global, value: &Value) -> Result<Term, ReadError>
    ensures read { Reads (λ t. t) result (name_form term_named (view value.now)) }
    ensures fault { Faults result (view value.now) }
{
    let Some(name) = value.as_str() else {
        return Err(unlike(alloc, value, Wanted::Term));
    };
    match term_named(name) {
        Some(term) => Ok(term),
        None => Err(unlike(alloc, value, Wanted::Term)),
    }
}

/// The variable that the value names, of any kind.
pub fn variable_of(alloc: Global, value: &Value) -> Result<Variable, ReadError>
    ensures read { Reads (λ v. v) result (name_form variable_named (view value.now)) }
    ensures fault { Faults result (view value.now) }
{
    let Some(name) = value.as_str() else {
        return Err(unlike(alloc, value, Wanted::Variable));
    };
    match variable_named(name) {
        Some(variable) => Ok(variable),
        None => Err(unlike(alloc, value, Wanted::Variable)),
    }
}

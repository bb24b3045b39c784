//! Which names an element writes (CSL 1.0.2, names, substitute).
ghost use Rattle.std.specs.Prelude.{◌≡◌, IfOk, filter, find, option_map};
ghost use Rattle.std.specs.List.{list_any, list_all};
ghost use Rattle.layout_picking.specs.Names.{
  is_present,
  stand_in,
  blocks,
  is_variable,
  written_blocks,
};
ghost use Rattle.layout_picking.specs.NamesView.{variables_view};

use crate::notes::{Form, Notes};
use csl_base::entry::EntryLike;
use csl_base::taxonomy::{NameVariable, Variable};
use std::alloc::{AllocError, Global};
use std::slice;

// Whether a variable has persons, and hasn't stood in for others.
fn is_present<T: EntryLike>(entry: &T, notes: &Notes, variable: NameVariable) -> bool
    ensures { result ≡ is_present (T.answers entry.now) notes.now variable }
{
    !entry.resolve_name_variable(variable).is_empty() && !notes.suppressed.contains(variable)
}

// Whether all variables are present.
fn are_present<T: EntryLike>(entry: &T, notes: &Notes, variables: &[NameVariable]) -> bool
    ensures { result ≡ list_all (is_present (T.answers entry.now) notes.now) variables.now }
{
    for variable in variables {
        if !is_present(entry, notes, *variable) {
            return false;
        }
    }
    true
}

// The first substitute that is present.
fn first_present<'a, T: EntryLike>(
    entry: &T,
    notes: &Notes,
    substitute: &'a [NameVariable],
) -> Option<&'a NameVariable>
    ensures { option_map (λ v. v.now) result
        ≡ find (is_present (T.answers entry.now) notes.now) substitute.now }
{
    for variable in substitute {
        if is_present(entry, notes, *variable) {
            return Some(variable);
        }
    }
    None
}

/// Variables of names, lent where the style has just these in a row.
#[derive(Drop)]
pub(crate) enum NameVariables<'a> {
    Lent(&'a [NameVariable]),
    Own(Vec<NameVariable>),
}

impl<'a> NameVariables<'a> {
    pub(crate) fn as_slice(&self) -> &[NameVariable]
        ensures { result.now ≡ variables_view self.now }
    {
        match self {
            NameVariables::Lent(variables) => variables,
            NameVariables::Own(variables) => variables.as_slice(),
        }
    }
}

// The variables that are present.
fn present<'a, T: EntryLike>(
    alloc: Global,
    entry: &T,
    notes: &Notes,
    variables: &'a [NameVariable],
) -> Result<NameVariables<'a>, AllocError>
    ensures { IfOk result (λ vs. variables_view vs
        ≡ filter (is_present (T.answers entry.now) notes.now) variables.now) }
{
    if are_present(entry, notes, variables) {
        return Ok(NameVariables::Lent(variables));
    }
    let mut present = Vec::new(alloc);
    for variable in variables {
        if is_present(entry, notes, *variable) {
            present.push(*variable)?;
        }
    }
    Ok(NameVariables::Own(present))
}

// What an element writes: names of these variables, and which one of them stands in for others.
#[derive(Drop)]
pub(crate) struct Blocks<'a> {
    pub(crate) variables: NameVariables<'a>,
    pub(crate) stand_in: Option<NameVariable>,
}

pub(crate) fn blocks_of<'a, T: EntryLike>(
    alloc: Global,
    entry: &T,
    notes: &Notes,
    variables: &'a [NameVariable],
    substitute: &'a [NameVariable],
) -> Result<Blocks<'a>, AllocError>
    ensures variables { IfOk result (λ b. variables_view b.variables
        ≡ blocks (T.answers entry.now) notes.now variables.now substitute.now) }
    ensures stand_in { IfOk result (λ b. b.stand_in
        ≡ stand_in (T.answers entry.now) notes.now variables.now substitute.now) }
{
    let variables = present(alloc, entry, notes, variables)?;
    if !variables.as_slice().is_empty() {
        return Ok(Blocks {
            variables,
            stand_in: None,
        });
    }
    match first_present(entry, notes, substitute) {
        Some(variable) => Ok(Blocks {
            variables: NameVariables::Lent(slice::from_ref(variable)),
            stand_in: Some(*variable),
        }),
        None => Ok(Blocks {
            variables,
            stand_in: None,
        }),
    }
}

// Whether a variable is this one of names.
fn is_variable(variable: Variable, name: NameVariable) -> bool
    ensures { result ≡ is_variable variable name }
{
    variable == Variable::Name(name)
}

// Whether a variable has a block.
fn has_block(variable: Variable, blocks: &[NameVariable]) -> bool
    ensures { result ≡ list_any (is_variable variable) blocks.now }
{
    blocks.iter().any(|v| is_variable(variable, *v))
}

// Whether all blocks are those of a variable.
fn are_variable(only: Variable, blocks: &[NameVariable]) -> bool
    ensures { result ≡ list_all (is_variable only) blocks.now }
{
    blocks.iter().all(|v| is_variable(only, *v))
}

impl<'a> NameVariables<'a> {
    // Those that are this variable.
    fn only(self, alloc: Global, only: Variable) -> Result<NameVariables<'a>, AllocError>
        ensures { IfOk result (λ vs. variables_view vs
            ≡ filter (is_variable only) (variables_view self.entry)) }
    {
        if are_variable(only, self.as_slice()) {
            return Ok(self);
        }
        let mut kept = Vec::new(alloc);
        for variable in self.as_slice() {
            if is_variable(only, *variable) {
                kept.push(*variable)?;
            }
        }
        Ok(NameVariables::Own(kept))
    }
}

// The blocks that are written in a form.
pub(crate) fn written_blocks<'a>(
    alloc: Global,
    form: Form,
    author: NameVariable,
    blocks: NameVariables<'a>,
) -> Result<NameVariables<'a>, AllocError>
    ensures { IfOk result (λ vs. variables_view vs
        ≡ written_blocks form author (variables_view blocks.entry)) }
{
    match form {
        Form::Full => Ok(blocks),
        Form::SuppressAuthor => {
            if has_block(Variable::Name(author), blocks.as_slice()) {
                return Ok(NameVariables::Lent(&[]));
            }
            Ok(blocks)
        }
        Form::VarOnly(only) => blocks.only(alloc, only),
        Form::OnlyFirstDate => Ok(NameVariables::Lent(&[])),
        Form::OnlyYearSuffix => Ok(NameVariables::Lent(&[])),
    }
}

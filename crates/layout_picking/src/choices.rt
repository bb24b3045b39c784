//! The tests of a choice's branches (CSL 1.0.2, choose).
ghost use Rattle.std.specs.Prelude.{◌≡◌};
ghost use Rattle.layout_picking.specs.Conditions.{
  is_repeated,
  is_at,
  has_variable,
  holds,
  passes,
  tested,
};
ghost use Rattle.layout_picking.specs.InputView.{cite_facts, env_of};

use crate::input::{CiteFacts, Input};
use crate::notes::Notes;
use csl_base::element::{ChooseMatch, Condition, TestPosition};
use csl_base::entry::EntryLike;
use csl_base::taxonomy::{NumberVariable, StandardVariable, Variable};
use driver_lookup::means::is_chosen;
use driver_lookup::state::IbidState;

// Whether the cite has a variable: of its entry, or of its own properties.
fn has_variable<T: EntryLike>(input: &Input<T>, variable: Variable) -> bool
    ensures { result ≡ has_variable
        (env_of (T.answers input.now.entry.now) input.now.setting) variable }
{
    let (entry, cite) = (input.entry, &input.setting.cite);
    match variable {
        Variable::Name(v) => !entry.resolve_name_variable(v).is_empty(),
        Variable::Date(v) => entry.resolve_date_variable(v).is_some(),
        Variable::Standard(StandardVariable::CitationLabel) => entry.citation_label().is_some(),
        Variable::Standard(StandardVariable::YearSuffix) => cite.suffix().is_some(),
        Variable::Standard(v) => entry.resolve_standard_variable(v).is_some(),
        Variable::Number(NumberVariable::CitationNumber) => true,
        Variable::Number(NumberVariable::Locator) => cite.locator.is_some(),
        Variable::Number(NumberVariable::FirstReferenceNoteNumber) => {
            cite.first_note_number.is_some()
        }
        Variable::Number(v) => entry.resolve_number_variable(v).is_some(),
    }
}

// Whether the cite stands at a position.
fn is_at(cite: &CiteFacts, position: TestPosition) -> bool
    ensures { result ≡ is_at (cite_facts cite.now) position }
{
    match position {
        TestPosition::First => cite.is_first,
        TestPosition::Subsequent => !cite.is_first,
        TestPosition::Ibid => cite.ibid != IbidState::Different,
        TestPosition::IbidWithLocator => cite.ibid == IbidState::IbidWithLocator,
        TestPosition::NearNote => cite.is_near_note,
    }
}

// Whether one condition holds.
fn holds<T: EntryLike>(input: &Input<T>, condition: Condition) -> bool
    ensures { result ≡ holds (env_of (T.answers input.now.entry.now) input.now.setting) condition }
{
    match condition {
        Condition::Disambiguate => { is_chosen(input.setting.cite.state, input.setting.cite.means) }
        Condition::Position(position) => is_at(&input.setting.cite, position),
        Condition::Variable(variable) => has_variable(input, variable),
    }
}

/// Tests all conditions of a branch, and returns whether its test holds.
pub fn passes<T: EntryLike>(
    input: &Input<T>,
    conditions: &[Condition],
    rule: ChooseMatch,
    notes: &mut Notes,
) -> bool
    ensures value { result ≡ passes
        (env_of (T.answers input.now.entry.now) input.now.setting) rule conditions.now }
    ensures after { notes.new ≡ tested conditions.now notes.old }
{
    let (mut some, mut all) = (false, true);
    for condition in conditions {
        if *condition == Condition::Disambiguate {
            notes.checked_disambiguate = true;
        }
        if holds(input, *condition) {
            some = true;
        } else {
            all = false;
        }
    }
    match rule {
        ChooseMatch::Any => some,
        ChooseMatch::All => all,
        ChooseMatch::None => !some,
    }
}

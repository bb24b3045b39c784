//! How far given names are written to disambiguate persons.
ghost use Rattle.std.specs.Prelude.{◌≡◌, IfOk, OnOk};
ghost use Rattle.std.specs.List.{flat_map};
ghost use Rattle.rounds_names.specs.ByName.{
  AreByName,
  by_family,
  by_initials,
  fuller_by,
  holders,
  is_other_held,
  shown_by_all,
};
ghost use Rattle.rounds_names.specs.Raising.{raise, raised};
ghost use Rattle.rounds_names.specs.Steps.{others};

use crate::by_name::{ByName, by_family, by_initials, has_other};
use crate::named_cite::NamedCite;
use csl_base::entry::Person;
use csl_base::names::{DisambiguatedNameForm, NameDisambiguationProperties};
use std::alloc::{AllocError, Global};

/// The form of a person at a place, among those whom the names hold. The names of those who share
/// its initials are asked only where it has namesakes.
fn fuller(
    alloc: Global,
    person: &Person,
    place: (usize, usize),
    by_name: &ByName,
    form: DisambiguatedNameForm,
) -> Result<DisambiguatedNameForm, AllocError>
    ensures { IfOk result (λ r. r
        ≡ fuller_by (is_other_held person.now place (holders by_name.now (by_family person.now)))
        (is_other_held person.now place (holders by_name.now (by_initials person.now))) form) }
{
    if !has_other(by_name, &by_family(person)?, person, place) {
        return Ok(form);
    }
    if has_other(by_name, &by_initials(alloc, person)?, person, place) {
        Ok(DisambiguatedNameForm::LongFull)
    } else {
        Ok(DisambiguatedNameForm::LongInitialized)
    }
}

/// The form of a person of a member, raised among the persons of all other members.
fn raised_in_group(
    alloc: Global,
    person: &Person,
    member: &NamedCite,
    group: &[NamedCite],
    by_name: &ByName,
    form: DisambiguatedNameForm,
) -> Result<DisambiguatedNameForm, AllocError>
    requires { AreByName by_name.now (shown_by_all group.now) }
    ensures { IfOk result (λ r. r
        ≡ raised person.now (flat_map (λ y. y.persons) (others group.now member.now)) form) }
{
    match form {
        DisambiguatedNameForm::Count | DisambiguatedNameForm::LongFull => Ok(form),
        DisambiguatedNameForm::Short | DisambiguatedNameForm::LongInitialized => {
            fuller(alloc, person, member.place, by_name, form)
        }
    }
}

/// Raises the form of a member's name `i`, counted from 1. Nothing changes at 0, where the member
/// has no such person, and where there is no such form.
pub(crate) fn raise(
    alloc: Global,
    member: &NamedCite,
    group: &[NamedCite],
    by_name: &ByName,
    i: usize,
    forms: &mut NameDisambiguationProperties,
) -> Result<(), AllocError>
    requires { AreByName by_name.now (shown_by_all group.now) }
    ensures { OnOk result
        (forms.new ≡ record { forms = raise group.now member.now i forms.old.forms }) }
{
    if i == 0 {
        return Ok(());
    }
    let Some(person) = member.persons.as_slice().get(i - 1) else {
        return Ok(());
    };
    if let Some(form) = forms.get_form_mut(i - 1) {
        *form = raised_in_group(alloc, person, member, group, by_name, *form)?;
    }
    Ok(())
}

//! The marks that disambiguate the cites of an ambiguous group by their names (CSL 1.0.2,
//! disambiguation).
ghost use Rattle.std.specs.Prelude.{◌≡◌, fold, length, zip, All, IfOk, OnOk};
ghost use Rattle.std.specs.List.{filter_map};
ghost use Rattle.driver_passes.specs.Places.{AreDistinct, IsPlace};
ghost use Rattle.driver_passes.specs.RendersView.{renders_view};
ghost use Rattle.rounds_names.specs.ByName.{AreByName, shown_by_all};
ghost use Rattle.rounds_names.specs.Classes.{StandApart};
ghost use Rattle.rounds_names.specs.NameMarks.{
  after_step,
  is_by_cite,
  mark,
  marks_after,
  name_marks,
};
ghost use Rattle.rounds_names.specs.Steps.{step, steps};

use crate::by_name::{ByName, by_name};
use crate::group::{first_adds_names, greatest_step, named_cites};
use crate::named_cite::{NamedCite, copied};
use crate::raising::raise;
use crate::steps::{group_steps, own_steps};
use csl_base::names::NameDisambiguationProperties;
use csl_base::style::DisambiguationRule;
use driver_lookup::state::DisambiguateState;
use driver_passes::renders::{AmbiguousGroup, Marks, SpeculativeCiteRender};
use std::alloc::{AllocError, Global};

fn is_by_cite(rule: Option<DisambiguationRule>) -> bool
    ensures { result ≡ is_by_cite rule }
{
    matches!(rule, Some(DisambiguationRule::ByCite))
}

fn take_step(
    alloc: Global,
    group: &[NamedCite],
    by_name: &ByName,
    member: &NamedCite,
    own: Option<usize>,
    i: usize,
    forms: &mut NameDisambiguationProperties,
) -> Result<(), AllocError>
    requires { AreByName by_name.now (shown_by_all group.now) }
    ensures { OnOk result (forms.new
        ≡ record { forms = after_step group.now member.now own forms.old.forms i }) }
{
    if is_by_cite(member.rule) && own == Some(i) {
        raise(alloc, member, group, by_name, i, forms)?;
    }
    forms.add_name(i);
    Ok(())
}

/// The forms of a member after all steps of its group.
fn forms_after(
    alloc: Global,
    group: &[NamedCite],
    by_name: &ByName,
    steps: &[usize],
    member: &NamedCite,
    own: Option<usize>,
    start: &NameDisambiguationProperties,
) -> Result<NameDisambiguationProperties, AllocError>
    requires { AreByName by_name.now (shown_by_all group.now) }
    ensures { IfOk result (λ f. f
        ≡ record { forms = fold (after_step group.now member.now own) start.now.forms steps.now }) }
{
    let mut forms = copied(start)?;
    for i in steps {
        take_step(alloc, group, by_name, member, own, *i, &mut forms)?;
    }
    Ok(forms)
}

fn mark_of(
    alloc: Global,
    group: &[NamedCite],
    by_name: &ByName,
    steps: &[usize],
    member: &NamedCite,
    own: Option<usize>,
) -> Result<Option<((usize, usize), DisambiguateState)>, AllocError>
    requires { AreByName by_name.now (shown_by_all group.now) }
    ensures { IfOk result (λ m. m ≡ mark group.now steps.now member.now own) }
{
    match &member.start {
        Some(start) => {
            let forms = forms_after(alloc, group, by_name, steps, member, own, start)?;
            Ok(Some((member.place, DisambiguateState::NameDisambiguation(forms))))
        }
        None => Ok(None),
    }
}

fn member_marks(
    alloc: Global,
    group: &[NamedCite],
    by_name: &ByName,
    steps: &[usize],
    own_steps: &[Option<usize>],
) -> Result<Marks, AllocError>
    requires long { length own_steps.now ≡ length group.now }
    requires by_name { AreByName by_name.now (shown_by_all group.now) }
    ensures { IfOk result (λ v. v.items
        ≡ filter_map (λ p. mark group.now steps.now p.0 p.1) (zip group.now own_steps.now)) }
{
    let mut found = Vec::new(alloc);
    for (k, member) in group.iter().enumerate() {
        if let Some(mark) = mark_of(alloc, group, by_name, steps, member, own_steps[k])? {
            found.push(mark)?;
        }
    }
    Ok(found)
}

/// The marks of a group of members, where at most this many names are tried.
fn group_marks(alloc: Global, group: &[NamedCite], greatest: usize) -> Result<Marks, AllocError>
    requires { StandApart group.now }
    ensures { IfOk result (λ v. v.items
        ≡ marks_after group.now (steps group.now greatest) (step group.now greatest)) }
{
    let own_steps = own_steps(alloc, group, greatest)?;
    let steps = group_steps(alloc, &own_steps, greatest)?;
    if steps.is_empty() {
        return Ok(Vec::new(alloc));
    }
    let by_name = by_name(alloc, group)?;
    member_marks(alloc, group, &by_name, &steps, &own_steps)
}

/// The marks that disambiguate the cites of a group by more of their names, in the group's order.
/// No marks for an empty group.
///
/// A member whose state leaves room for more names is known by `i` names where its first `i`
/// persons, cut by the rule of its style, differ from those of each other member. The least such
/// `i` is its step; it is at most the greatest number of persons where the style of the first
/// request adds names, and else 1. At each step of the group each member that has forms gets name
/// `i` written; one whose own step it is, and whose style adds given names by cite, gets that
/// name's form raised first. The mark of a member is the state that it has after all steps; it may
/// be that which it had.
///
/// The places have to be those of cites, none twice.
///
/// # Errors
///
/// Where memory is refused.
pub fn disambiguate_names<T, P>(
    alloc: Global,
    cites: &[SpeculativeCiteRender<'_, '_, T, P>],
    group: &AmbiguousGroup,
) -> Result<Marks, AllocError>
    requires exist { All (IsPlace (renders_view cites.now)) group.now.items }
    requires distinct { AreDistinct group.now.items }
    ensures { IfOk result
        (λ marks. marks.items ≡ name_marks (renders_view cites.now) group.now.items) }
{
    let members = named_cites(alloc, cites, group)?;
    let greatest = greatest_step(first_adds_names(cites), &members);
    group_marks(alloc, &members, greatest)
}

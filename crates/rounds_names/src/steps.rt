//! With how many names the members of a group are disambiguated.
ghost use Rattle.std.specs.Prelude.{◌≡◌, ◌+◌, filter, length, map, zip, IfOk};
ghost use Rattle.std.specs.List.{list_any, range_with_len};
ghost use Rattle.std.specs.Option.{option_or};
ghost use Rattle.rounds_names.specs.Classes.{
  AreClasses,
  StandApart,
  first_step,
  is_alone,
  step_after,
  step_by,
  waits_for_step,
};
ghost use Rattle.rounds_names.specs.Steps.{is_own_step, same_place, step};

use crate::classes::{class_sizes, next_classes};
use crate::named_cite::NamedCite;
use csl_base::style::DisambiguationRule;
use std::alloc::{AllocError, Global};

/// Each rule by which a style may add given names; none stands for a style that adds none.
const RULES: [Option<DisambiguationRule>; 6] = [
    None,
    Some(DisambiguationRule::AllNames),
    Some(DisambiguationRule::AllNamesWithInitials),
    Some(DisambiguationRule::PrimaryName),
    Some(DisambiguationRule::PrimaryNameWithInitials),
    Some(DisambiguationRule::ByCite),
];

pub(crate) fn same_place(a: (usize, usize), b: (usize, usize)) -> bool
    ensures { result ≡ same_place a b }
{
    a.0 == b.0 && a.1 == b.1
}

/// Whether a member of this rule has no step yet, and may have one.
fn waits(rule: Option<DisambiguationRule>, member: &NamedCite, own: Option<usize>) -> bool
    ensures { result ≡ waits_for_step rule member.now own }
{
    own.is_none() && member.may_be_named && member.rule == rule
}

fn some_waits(
    rule: Option<DisambiguationRule>,
    group: &[NamedCite],
    steps: &[Option<usize>],
) -> bool
    requires { length steps.now ≡ length group.now }
    ensures { result ≡ list_any (λ p. waits_for_step rule p.0 p.1) (zip group.now steps.now) }
{
    for (k, member) in group.iter().enumerate() {
        if waits(rule, member, steps[k]) {
            return true;
        }
    }
    false
}

/// The step of a member after its group was disambiguated by `i` names.
fn step_after(
    rule: Option<DisambiguationRule>,
    i: usize,
    member: &NamedCite,
    own: Option<usize>,
    is_alone: bool,
) -> Option<usize>
    ensures { result ≡ step_after rule i member.now own is_alone }
{
    if is_alone && waits(rule, member, own) {
        Some(i)
    } else {
        own
    }
}

/// The steps of the members after their group was disambiguated by `i` names, into these classes.
fn steps_after(
    alloc: Global,
    rule: Option<DisambiguationRule>,
    i: usize,
    group: &[NamedCite],
    classes: &[usize],
    steps: &[Option<usize>],
) -> Result<Vec<Option<usize>>, AllocError>
    requires apart { StandApart group.now }
    requires classes { AreClasses rule group.now i classes.now }
    requires long { length steps.now ≡ length group.now }
    ensures { IfOk result (λ v. v.items
        ≡ map (λ p. step_after rule i p.0 p.1 (is_alone rule group.now i p.0))
        (zip group.now steps.now)) }
{
    let sizes = class_sizes(alloc, classes)?;
    let mut found = Vec::new(alloc);
    for (k, member) in group.iter().enumerate() {
        let is_alone = sizes[classes[k]] == 1;
        found.push(step_after(rule, i, member, steps[k], is_alone))?;
    }
    Ok(found)
}

/// Adds the steps of the members of a rule.
fn with_steps_of(
    alloc: Global,
    rule: Option<DisambiguationRule>,
    group: &[NamedCite],
    greatest: usize,
    steps: Vec<Option<usize>>,
) -> Result<Vec<Option<usize>>, AllocError>
    requires apart { StandApart group.now }
    requires long { length steps.items ≡ length group.now }
    ensures { IfOk result (λ v. v.items
        ≡ map (λ p. option_or p.1 (first_step rule group.now greatest p.0))
        (zip group.now steps.items)) }
{
    let mut steps = steps;
    let mut classes = vec![in alloc; 0; group.len()]?;
    for i in 0..greatest {
        if !some_waits(rule, group, &steps) {
            return Ok(steps);
        }
        classes = next_classes(alloc, rule, i, group, &classes)?;
        steps = steps_after(alloc, rule, i + 1, group, &classes, &steps)?;
    }
    Ok(steps)
}

/// The steps of the members of these rules, in the group's order.
fn steps_by(
    alloc: Global,
    rules: &[Option<DisambiguationRule>],
    group: &[NamedCite],
    greatest: usize,
) -> Result<Vec<Option<usize>>, AllocError>
    requires { StandApart group.now }
    ensures { IfOk result (λ v. v.items ≡ map (step_by rules.now group.now greatest) group.now) }
{
    let mut found = vec![in alloc; None; group.len()]?;
    for rule in rules {
        found = with_steps_of(alloc, *rule, group, greatest, found)?;
    }
    Ok(found)
}

/// The step of each member, in the group's order.
pub(crate) fn own_steps(
    alloc: Global,
    group: &[NamedCite],
    greatest: usize,
) -> Result<Vec<Option<usize>>, AllocError>
    requires { StandApart group.now }
    ensures { IfOk result (λ v. v.items ≡ map (step group.now greatest) group.now) }
{
    steps_by(alloc, &RULES, group, greatest)
}

fn is_step(i: usize, own_steps: &[Option<usize>]) -> bool
    ensures { result ≡ list_any (is_own_step i) own_steps.now }
{
    for own in own_steps {
        if *own == Some(i) {
            return true;
        }
    }
    false
}

/// The numbers that are the step of some member, from the least on.
pub(crate) fn group_steps(
    alloc: Global,
    own_steps: &[Option<usize>],
    greatest: usize,
) -> Result<Vec<usize>, AllocError>
    ensures { IfOk result (λ v. v.items
        ≡ filter (λ i. list_any (is_own_step i) own_steps.now) (range_with_len 1 greatest)) }
{
    let mut found = Vec::new(alloc);
    for k in 0..greatest {
        if is_step(k + 1, own_steps) {
            found.push(k + 1)?;
        }
    }
    Ok(found)
}

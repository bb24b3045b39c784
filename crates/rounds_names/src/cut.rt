//! How much of each person a rule keeps.
ghost use Rattle.std.specs.Prelude.{◌≡◌, IfOk};
ghost use Rattle.rounds_names.specs.Cut.{initialized, kept, without_given};

use csl_base::entry::Person;
use csl_base::style::DisambiguationRule;
use std::alloc::{AllocError, Global};

fn without_given(person: &Person) -> Result<Person, AllocError>
    ensures { IfOk result (λ p. p ≡ without_given person.now) }
{
    Ok(Person {
        name: person.name.clone()?,
        given_name: None,
    })
}

fn initialized(alloc: Global, person: &Person) -> Result<Person, AllocError>
    ensures { IfOk result (λ p. p ≡ initialized person.now) }
{
    Ok(Person {
        name: person.name.clone()?,
        given_name: Some(person.initials(alloc)?),
    })
}

/// What a rule keeps of the first person of a cite or a later one; without a rule no given name is
/// kept.
pub(crate) fn kept(
    alloc: Global,
    rule: Option<DisambiguationRule>,
    is_first: bool,
    person: &Person,
) -> Result<Person, AllocError>
    ensures { IfOk result (λ p. p ≡ kept rule is_first person.now) }
{
    match rule {
        None => without_given(person),
        Some(DisambiguationRule::AllNames) => person.clone(),
        Some(DisambiguationRule::ByCite) => person.clone(),
        Some(DisambiguationRule::AllNamesWithInitials) => initialized(alloc, person),
        Some(DisambiguationRule::PrimaryName) => {
            if is_first {
                person.clone()
            } else {
                without_given(person)
            }
        }
        Some(DisambiguationRule::PrimaryNameWithInitials) => {
            if is_first {
                initialized(alloc, person)
            } else {
                without_given(person)
            }
        }
    }
}

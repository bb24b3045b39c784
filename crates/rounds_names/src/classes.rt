//! The members of a group that read alike, as classes with numbers.
ghost use Rattle.std.specs.Prelude.{
  ◌≡◌,
  ◌<◌,
  ◌+◌,
  ℕ,
  All,
  IfOk,
  length,
  nat_eq,
  slice_index,
  vec_len,
};
ghost use Rattle.std.specs.List.{count_by};
ghost use Rattle.rounds_names.specs.Classes.{AreClasses, kept_at};

use crate::cut::kept;
use crate::named_cite::NamedCite;
use csl_base::entry::Person;
use csl_base::style::DisambiguationRule;
use ordered_set::set::OrderedSet;
use std::alloc::{AllocError, Global};

/// What members share who read alike by one person more.
#[derive(PartialEq, Eq, PartialOrd, Ord, Drop)]
struct ClassKey {
    /// Their class by the persons before.
    class: usize,
    /// What the rule keeps of the next person, if they have one.
    person: Option<Person>,
}

fn kept_at(
    alloc: Global,
    rule: Option<DisambiguationRule>,
    i: usize,
    persons: &[Person],
) -> Result<Option<Person>, AllocError>
    ensures { IfOk result (λ p. p ≡ kept_at rule i persons.now) }
{
    match persons.get(i) {
        Some(person) => Ok(Some(kept(alloc, rule, i == 0, person)?)),
        None => Ok(None),
    }
}

/// The classes of members by one person more, from those by their first `i` persons. A class has
/// the number of its first member's key among the distinct keys.
pub(crate) fn next_classes(
    alloc: Global,
    rule: Option<DisambiguationRule>,
    i: usize,
    group: &[NamedCite],
    classes: &[usize],
) -> Result<Vec<usize>, AllocError>
    requires { AreClasses rule group.now i classes.now }
    ensures { IfOk result (λ v. AreClasses rule group.now (i + 1) v.items) }
{
    let mut keys = OrderedSet::new(alloc);
    let mut found = Vec::new(alloc);
    for (k, member) in group.iter().enumerate() {
        let person = kept_at(alloc, rule, i, member.persons.as_slice())?;
        let again = kept_at(alloc, rule, i, member.persons.as_slice())?;
        let class = classes[k];
        let copy = ClassKey {
            class,
            person: again,
        };
        found.push(keys.insert(ClassKey { class, person }, copy)?)?;
    }
    Ok(found)
}

/// How many members each class has.
pub(crate) fn class_sizes(alloc: Global, classes: &[usize]) -> Result<Vec<usize>, AllocError>
    requires { All (λ c. c < length classes.now) classes.now }
    ensures long { IfOk result (λ v. vec_len v ≡ length classes.now) }
    ensures sizes { IfOk result (λ v. (n : ℕ) → n < length classes.now
        → slice_index v.items n ≡ count_by (nat_eq n) classes.now) }
{
    let mut sizes = vec![in alloc; 0; classes.len()]?;
    for class in classes {
        sizes[*class] += 1;
    }
    Ok(sizes)
}

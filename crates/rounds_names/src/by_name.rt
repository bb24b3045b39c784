//! Who is named by a family name in a group, and who by it and by initials.
ghost use Rattle.std.specs.Prelude.{◌≡◌, ◌∷◌, [], true, IfOk, OnOk, if◌then◌else◌};
ghost use Rattle.rounds_names.specs.ByName.{
  TellsMore,
  AreByName,
  Grows,
  IsTold,
  TellElsewhere,
  TellWithout,
  by_family,
  by_initials,
  holders,
  is_other_held,
  names_of,
  same_name,
  shown_by_all,
  shown_by,
};
ghost use Rattle.rounds_names.specs.declared.by_name.SharedName.{SharedName as SharedNameValue};

use crate::named_cite::NamedCite;
use crate::steps::same_place;
use csl_base::entry::Person;
use csl_base::text::Text;
use std::alloc::{AllocError, Global};
use std::collections::BTreeMap;

/// What namesakes share: a family name, and those who have the same initials also these.
#[derive(PartialEq, Eq, PartialOrd, Ord, Drop)]
pub(crate) struct SharedName {
    pub(crate) name: Text,
    pub(crate) initials: Option<Text>,
}

/// A person, and the place of a member that has them.
#[derive(Drop)]
pub(crate) struct Holder {
    pub(crate) person: Person,
    pub(crate) place: (usize, usize),
}

/// For each shared name enough holders to decide, for any person and place, whether another person
/// of that name is held elsewhere.
pub(crate) type ByName = BTreeMap<SharedName, Vec<Holder>>;

/// Whether another person than this one is held elsewhere than at this place.
fn is_other_held(holders: &[Holder], person: &Person, place: (usize, usize)) -> bool
    ensures { result ≡ is_other_held person.now place holders.now }
{
    for holder in holders {
        if *person != holder.person && !same_place(place, holder.place) {
            return true;
        }
    }
    false
}

/// Whether the holders say all that a person at a place adds of others than this one.
fn tells_without(holders: &[Holder], person: &Person, added: &Person, place: (usize, usize)) -> bool
    ensures { result ≡ true → TellWithout person.now added.now place holders.now }
{
    if person == added {
        return true;
    }
    for holder in holders {
        if *person != holder.person {
            return same_place(holder.place, place) || is_other_held(holders, person, holder.place);
        }
    }
    false
}

/// Whether the holders say all that a person at a place adds elsewhere than at another place.
fn tells_elsewhere(
    holders: &[Holder],
    elsewhere: (usize, usize),
    added: &Person,
    place: (usize, usize),
) -> bool
    ensures { result ≡ true → TellElsewhere elsewhere added.now place holders.now }
{
    if same_place(elsewhere, place) {
        return true;
    }
    for holder in holders {
        if !same_place(elsewhere, holder.place) {
            return holder.person == *added || is_other_held(holders, &holder.person, elsewhere);
        }
    }
    false
}

/// Whether one more who holds a person at a place changes no answer. What the first holder doesn't
/// say is asked for that holder's person, or for that holder's place.
fn is_told(holders: &[Holder], person: &Person, place: (usize, usize)) -> bool
    ensures { result ≡ true → IsTold person.now place holders.now }
{
    match holders.first() {
        Some(first) => {
            tells_without(holders, &first.person, person, place)
                && tells_elsewhere(holders, first.place, person, place)
        }
        None => false,
    }
}

fn add_holder(
    holders: &mut Vec<Holder>,
    person: &Person,
    place: (usize, usize),
) -> Result<(), AllocError>
    ensures { OnOk result (Grows person.now place holders.old.items holders.new.items) }
{
    if is_told(holders, person, place) {
        return Ok(());
    }
    holders.push(Holder {
        person: person.clone()?,
        place,
    })?;
    Ok(())
}

fn take_holders(alloc: Global, by_name: &mut ByName, name: &SharedName) -> Vec<Holder>
    ensures taken { result.items ≡ holders by_name.old name.now }
    ensures rest { (q : SharedNameValue)
        → holders by_name.new q ≡ (if same_name name.now q then [] else holders by_name.old q) }
{
    match by_name.remove(name) {
        Some(holders) => holders,
        None => Vec::new(alloc),
    }
}

/// Adds a person under a name.
fn add_named(
    alloc: Global,
    by_name: &mut ByName,
    name: SharedName,
    person: &Person,
    place: (usize, usize),
) -> Result<(), AllocError>
    ensures { OnOk result (TellsMore by_name.old by_name.new
        ((name, record { person = person.now; place = place }) ∷ [])) }
{
    let mut holders = take_holders(alloc, by_name, &name);
    add_holder(&mut holders, person, place)?;
    by_name.insert(name, holders)?;
    Ok(())
}

/// The family name of a person.
pub(crate) fn by_family(person: &Person) -> Result<SharedName, AllocError>
    ensures { IfOk result (λ n. n ≡ by_family person.now) }
{
    Ok(SharedName {
        name: person.name.clone()?,
        initials: None,
    })
}

/// The family name and the initials of a person.
pub(crate) fn by_initials(alloc: Global, person: &Person) -> Result<SharedName, AllocError>
    ensures { IfOk result (λ n. n ≡ by_initials person.now) }
{
    Ok(SharedName {
        name: person.name.clone()?,
        initials: Some(person.initials(alloc)?),
    })
}

fn add_person(
    alloc: Global,
    by_name: &mut ByName,
    person: &Person,
    place: (usize, usize),
) -> Result<(), AllocError>
    ensures { OnOk result (TellsMore by_name.old by_name.new (names_of place person.now)) }
{
    add_named(alloc, by_name, by_family(person)?, person, place)?;
    add_named(alloc, by_name, by_initials(alloc, person)?, person, place)
}

fn add_member(alloc: Global, by_name: &mut ByName, member: &NamedCite) -> Result<(), AllocError>
    ensures { OnOk result (TellsMore by_name.old by_name.new (shown_by member.now)) }
{
    for person in member.persons.as_slice() {
        add_person(alloc, by_name, person, member.place)?;
    }
    Ok(())
}

/// The persons of all members, by the names that they share.
pub(crate) fn by_name(alloc: Global, group: &[NamedCite]) -> Result<ByName, AllocError>
    ensures { IfOk result (λ m. AreByName m (shown_by_all group.now)) }
{
    let mut by_name = BTreeMap::new(alloc);
    for member in group {
        add_member(alloc, &mut by_name, member)?;
    }
    Ok(by_name)
}

/// Whether another person of this name than this one is held elsewhere than at this place.
pub(crate) fn has_other(
    by_name: &ByName,
    name: &SharedName,
    person: &Person,
    place: (usize, usize),
) -> bool
    ensures { result ≡ is_other_held person.now place (holders by_name.now name.now) }
{
    match by_name.get(name) {
        Some(holders) => is_other_held(holders, person, place),
        None => false,
    }
}

//! Reading persons.
ghost use Rattle.serde_json.specs.Data.{array};
ghost use Rattle.serde_json.specs.View.{view, items_view};
ghost use Rattle.document_values.specs.Words.{all_items, list_form};
ghost use Rattle.document_requests.specs.Entries.{person_form};
ghost use Rattle.document_values.specs.Reads.{Faults, Reads};

use csl_base::entry::Person;
use csl_base::seq::Seq;
use document_values::error::ReadError;
use document_values::fault::Wanted;
use document_values::refusals::unlike;
use document_values::texts::item_text;
use document_values::words::list_of;
use serde_json::Value;
use std::alloc::Global;

/// A person: a list of a family name, or of a family name and a given name.
fn person_of(alloc: Global, value: &Value) -> Result<Person, ReadError>
    ensures read { Reads (λ p. p) result (person_form (view value.now)) }
    ensures fault { Faults result (view value.now) }
{
    match list_of(alloc, value)? {
        [family] => Ok(Person {
            name: item_text(alloc, family, 0)?,
            given_name: None,
        }),
        [family, given] => Ok(Person {
            name: item_text(alloc, family, 0)?,
            given_name: Some(item_text(alloc, given, 1)?),
        }),
        _ => Err(unlike(alloc, value, Wanted::Person)),
    }
}

/// The persons that the items of a list are.
///
/// # Errors
/// The fault of the first item that is no person, as one of the list; lack of memory.
#[tactic(auto, using(document_values::proofs::Ways::item_there))]
pub fn all_persons(alloc: Global, items: &[Value]) -> Result<Vec<Person>, ReadError>
    ensures read { Reads (λ v. v.items) result (all_items person_form (items_view items.now)) }
    ensures fault { Faults result (array (items_view items.now)) }
{
    let mut persons = Vec::new(alloc);
    for (place, item) in items.iter().enumerate() {
        match person_of(alloc, item) {
            Ok(person) => persons.push(person)?,
            Err(error) => return Err(error.in_item(place)),
        }
    }
    Ok(persons)
}

/// The persons that the items of the value are, which has to be a list.
pub(crate) fn persons_of(alloc: Global, value: &Value) -> Result<Seq<Person>, ReadError>
    ensures read { Reads (λ s. s) result (list_form person_form (view value.now)) }
    ensures fault { Faults result (view value.now) }
{
    let list = list_of(alloc, value)?;
    Ok(Seq::new(all_persons(alloc, list)?))
}

//! The order of items.
ghost use Rattle.std.specs.Prelude.{IfOk, length};
ghost use Rattle.cite_sorting.specs.Ties.{IsOrderOf, indexes_in};

use crate::keys::{Key, KeyScene};
use crate::ties::{sorted_by, tied_by};
use cite_collation::key::CollationKey;
use cite_limits::error::LimitError;
use cite_program::build::program_of;
use cite_program::program::ProgramError;
use cite_walk::cite::CiteFacts;
use std::alloc::Global;
use std::cmp::Reverse;
use style_file::sections::{SortBy, SortDirection, SortKey};
use style_file::style::CslStyle;

/// The keys of a citation or a bibliography, with the programs of their macros.
///
/// # Errors
///
/// Those of `program_of`.
pub fn keys_of<'s>(
    alloc: Global,
    style: &'s CslStyle,
    sort: &'s [SortKey],
) -> Result<Vec<Key<'s>>, ProgramError> {
    let mut keys = Vec::new(alloc);
    for key in sort {
        let program = match key.by {
            SortBy::Variable(_) => None,
            SortBy::Macro(index) => match style.macros.get(index.0) {
                Some(called) => Some(program_of(alloc, &style.macros, &called.elements)?),
                None => None,
            },
        };
        keys.push(Key { key: *key, program })?;
    }
    Ok(keys)
}

/// The indexes of cites in the order of the keys, each once (`sorted_by`). Cites whose keys are all
/// equal stay in their order; one without a value follows those that have one.
///
/// # Errors
///
/// `Exceeded` where the keys take more than the budget has; `OutOfMemory`.
pub fn sorted_indexes<'s>(
    alloc: Global,
    scene: KeyScene<'s>,
    keys: &'s [Key<'s>],
    cites: &[CiteFacts<'_>],
) -> Result<Vec<usize>, LimitError>
    ensures each_once { IfOk result (λ indexes. IsOrderOf (length cites.now) indexes.items) }
{
    let value = |key: usize, cite: usize| value_of(alloc, scene, keys, cites, key, cite);
    sorted_by(alloc, keys.len(), cites.len(), value)
}

/// The indexes of cites in the order of the keys, each once, in groups whose keys are all equal
/// (`tied_by`). A key is written only of cites that are tied by those before it.
///
/// # Errors
///
/// `Exceeded` where the keys take more than the budget has; `OutOfMemory`.
pub fn tied_indexes<'s>(
    alloc: Global,
    scene: KeyScene<'s>,
    keys: &'s [Key<'s>],
    cites: &[CiteFacts<'_>],
) -> Result<Vec<Vec<usize>>, LimitError>
    ensures each_once { IfOk result (λ ties. IsOrderOf (length cites.now) (indexes_in ties.items)) }
{
    let value = |key: usize, cite: usize| value_of(alloc, scene, keys, cites, key, cite);
    tied_by(alloc, keys.len(), cites.len(), &value)
}

/// The value of a cite by a key.
fn value_of<'s>(
    alloc: Global,
    scene: KeyScene<'s>,
    keys: &'s [Key<'s>],
    cites: &[CiteFacts<'_>],
    key: usize,
    cite: usize,
) -> Result<Value, LimitError> {
    let Some(key) = keys.get(key) else {
        return Ok(Value::Missing);
    };
    let Some(cite) = cites.get(cite) else {
        return Ok(Value::Missing);
    };
    let value = scene.value(alloc, key, *cite)?;
    Ok(Value::of_key(value, key.key.direction))
}

/// The value of a key of one direction. One that is missing follows the others.
#[derive(PartialEq, Eq, PartialOrd, Ord, Drop)]
enum Value {
    Ascending(CollationKey),
    Descending(Reverse<CollationKey>),
    Missing,
}

impl Value {
    fn of_key(key: Option<CollationKey>, direction: SortDirection) -> Value {
        let Some(key) = key else {
            return Value::Missing;
        };
        match direction {
            SortDirection::Ascending => Value::Ascending(key),
            SortDirection::Descending => Value::Descending(Reverse(key)),
        }
    }
}

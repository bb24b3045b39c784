//! What was written.
ghost use Rattle.std.specs.Prelude.{◌≡◌, IfOk};

use crate::key::TaskKey;
use driver_writers::cite::Cite;
use ordered_map::map::OrderedMap;
use std::alloc::AllocError;

/// What was written, by what it was asked for. Of an item and of a date the tree alone counts.
pub type Table = OrderedMap<TaskKey, Cite>;

/// A copy of what was written.
///
/// # Errors
///
/// Where memory is refused.
pub fn copied(cite: &Cite) -> Result<Cite, AllocError>
    ensures { IfOk result (λ c. c ≡ cite.now) }
{
    let first_name = match &cite.first_name {
        Some(names) => Some(names.clone()?),
        None => None,
    };
    Ok(Cite {
        children: cite.children.clone()?,
        checked_disambiguate: cite.checked_disambiguate,
        first_name,
        identifier_usage: cite.identifier_usage,
    })
}

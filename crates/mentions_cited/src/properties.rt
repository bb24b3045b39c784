//! The properties of mentions.
ghost use Rattle.std.specs.Prelude.{◌≡◌, ◌+◌, ◌*◌, ◌<◌, ◌^◌, IfOk, length, map};
ghost use Rattle.driver_lookup.specs.PropertiesView.{properties_view};
ghost use Rattle.driver_passes.specs.Class.{is_note};
ghost use Rattle.mentions_cited.specs.HomeView.{home_view, homes_view};
ghost use Rattle.mentions_cited.specs.Mentions.{
  all_properties,
  certain_properties,
  mention_properties,
};

use crate::home::Home;
use driver_lookup::properties::{CertainCiteProperties, CiteProperties, SpeculativeCiteProperties};
use driver_lookup::state::IbidState;
use std::alloc::{AllocError, Global};
use value_styles::style::StyleClass;

/// Whether the cites of this class stand in notes.
fn is_note(class: StyleClass) -> bool
    ensures { result ≡ is_note class }
{
    match class {
        StyleClass::Note => true,
        StyleClass::InText => false,
    }
}

/// What is certain of the first mention of an entry with this home, or of the later one.
fn certain_properties<T, P>(home: &Home<'_, '_, T, P>, is_first: bool) -> CertainCiteProperties
    ensures { result ≡ certain_properties (home_view home.now) is_first }
{
    let request = home.request.request;
    CertainCiteProperties {
        note_number: request.note_number(),
        first_note_number: home.notes.first_note,
        is_near_note: !is_first && is_note(request.style().settings.class),
        is_first,
        initial_idx: home.place,
    }
}

/// The properties of the first mention of an entry with this home and this number, or of the later
/// one.
fn mention_properties<'p, T, P>(
    home: &Home<'_, '_, T, P>,
    number: usize,
    is_first: bool,
) -> CiteProperties<'p, P>
    ensures { properties_view result ≡ mention_properties number (home_view home.now) is_first }
{
    CiteProperties {
        certain: certain_properties(home, is_first),
        speculative: SpeculativeCiteProperties::speculate(None, number, IbidState::Different),
    }
}

/// The properties of the mentions of entries with these homes, which are numbered from the offset:
/// for each the first mention's, then the later one's.
///
/// # Errors
///
/// Where memory is refused.
pub fn properties_of_mentions<'p, T, P: Drop>(
    alloc: Global,
    homes: &[Home<'_, '_, T, P>],
    offset: usize,
) -> Result<Vec<CiteProperties<'p, P>>, AllocError>
    requires { offset + length homes.now < 2 ^ 64 }
    ensures properties { IfOk result (λ v. map properties_view v.items
        ≡ all_properties offset (homes_view homes.now)) }
    ensures count { IfOk result (λ v. length v.items ≡ 2 * length homes.now) }
{
    let mut properties = Vec::with_capacity(alloc, homes.len())?;
    for (index, home) in homes.iter().enumerate() {
        properties.push(mention_properties(home, offset + index, true))?;
        properties.push(mention_properties(home, offset + index, false))?;
    }
    Ok(properties)
}

//! Small values, and properties of cites with a payload of the caller's own.
use csl_base::taxonomy::Locator;
use csl_writing::brackets::Brackets;
use csl_writing::locator::{LocatorPayload, SpecificLocator, TransparentLocator};
use csl_writing::properties::{CertainCiteProperties, CiteProperties, SpeculativeCiteProperties};
use csl_writing::state::{DisambiguateState, IbidState, IdentifierUsage};
use std::alloc::{AllocError, Global};

type Properties = CiteProperties<'static, u32>;

/// Whether the greatest state, what is there by default, and brackets are as they should be.
pub fn small_values() -> bool {
    let state = DisambiguateState::Choose.max(DisambiguateState::YearSuffix(3));
    let is_greatest = state == DisambiguateState::YearSuffix(3);
    let are_defaults = DisambiguateState::default() == DisambiguateState::None
        && IdentifierUsage::default().label().number() == IdentifierUsage::Mixed;
    let are_brackets = Brackets::Square.left() == Some('[')
        && Brackets::Square.right() == Some(']')
        && Brackets::None.left() == None;
    is_greatest && are_defaults && are_brackets
}

/// The properties of a cite at index 3 of its request, whose locator is this payload of the
/// caller's own, on a page. The locator is a copy.
///
/// # Errors
/// Where memory is refused.
pub fn located(alloc: Global, payload: u32) -> Result<CiteProperties<'static, u32>, AllocError> {
    let payload = LocatorPayload::Transparent(TransparentLocator::new(alloc, payload)?);
    let locator = SpecificLocator(Locator::Page, payload);
    let copy: Result<_, _> = locator.clone();
    drop(locator);
    Ok(CiteProperties {
        certain: CertainCiteProperties {
            initial_idx: 3,
            ..CertainCiteProperties::default()
        },
        speculative: SpeculativeCiteProperties::speculate(Some(copy?), 2, IbidState::Different),
    })
}

/// Whether these are the properties of a cite with this payload.
fn are_of(alloc: Global, properties: &Properties, payload: u32) -> Result<bool, AllocError> {
    let others = located(alloc, payload)?;
    let are_equal = others == *properties;
    drop(others);
    Ok(are_equal)
}

/// Whether a copy of the properties loses its locator in a bibliography, and differs then.
fn lose_their_locator(properties: &Properties) -> Result<bool, AllocError> {
    let without = properties.clone()?.speculative.for_bibliography();
    let is_another = !(without == properties.speculative);
    let has_none = without.locator.is_none();
    drop(without);
    Ok(has_none && is_another)
}

/// Whether the copy of a state is equal to it.
fn state_is_copied() -> Result<bool, AllocError> {
    let copy = DisambiguateState::Choose.clone()?;
    Ok(copy == DisambiguateState::Choose)
}

/// Whether properties are compared with their payloads, and copied.
///
/// # Errors
/// Where memory is refused.
pub fn properties_are_compared(alloc: Global) -> Result<bool, AllocError> {
    let properties = located(alloc, 7)?;
    let of_seven = are_of(alloc, &properties, 7);
    let of_eight = are_of(alloc, &properties, 8);
    let lose_it = lose_their_locator(&properties);
    drop(properties);
    Ok(of_seven? && !of_eight? && lose_it? && state_is_copied()?)
}

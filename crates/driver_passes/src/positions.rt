//! The position of a cite against the one before it (CSL 1.0.2, position).
ghost use Rattle.std.specs.Prelude.{◌≡◌, option_map};
ghost use Rattle.driver_lookup.specs.PropertiesView.{locator_view, payload_view};
ghost use Rattle.driver_passes.specs.Positions.{position_by, same_locators, same_payload, with_last};
ghost use Rattle.driver_passes.specs.RequestView.{cite_view};

use crate::item::CitationItem;
use driver_lookup::locator::{LocatorPayload, SpecificLocator};
use driver_lookup::state::IbidState;

fn same_payload<P: PartialEq>(a: &LocatorPayload<'_, P>, b: &LocatorPayload<'_, P>) -> bool
    ensures { result ≡ same_payload P.eq (payload_view a.now) (payload_view b.now) }
{
    match (a, b) {
        (LocatorPayload::Str(a), LocatorPayload::Str(b)) => **a == **b,
        (LocatorPayload::Transparent(a), LocatorPayload::Transparent(b)) => *a == *b,
        _ => false,
    }
}

/// Whether both are the same locator, or both are none.
fn same_locators<P: PartialEq>(
    a: &Option<SpecificLocator<'_, P>>,
    b: &Option<SpecificLocator<'_, P>>,
) -> bool
    ensures { result ≡ same_locators P.eq (option_map locator_view a.now)
        (option_map locator_view b.now) }
{
    match (a, b) {
        (Some(a), Some(b)) => a.0 == b.0 && same_payload(&a.1, &b.1),
        (None, None) => true,
        _ => false,
    }
}

/// The position of a cite with this locator that repeats the last one, or doesn't.
pub fn position_by<P: PartialEq>(
    repeats: bool,
    this: &Option<SpecificLocator<'_, P>>,
    last: &Option<SpecificLocator<'_, P>>,
) -> IbidState
    ensures { result ≡ position_by P.eq repeats (option_map locator_view this.now)
        (option_map locator_view last.now) }
{
    if !repeats {
        return IbidState::Different;
    }
    if same_locators(this, last) {
        return IbidState::Ibid;
    }
    match this {
        Some(_) => IbidState::IbidWithLocator,
        None => IbidState::Different,
    }
}

/// The position of a cite against the last one before it. No last one, another entry and a hidden
/// one give `Different`; an equal entry gives `Ibid` where the locators are equal, `Different`
/// where they aren't and this cite has none, and else `IbidWithLocator`. It takes no memory.
pub fn with_last<T: PartialEq, P: PartialEq>(
    this: &CitationItem<'_, T, P>,
    last: Option<&CitationItem<'_, T, P>>,
) -> IbidState
    ensures { result ≡ with_last T.eq P.eq (cite_view this.now)
        (option_map (λ l. cite_view l.now) last.entry) }
{
    let Some(last) = last else {
        return IbidState::Different;
    };
    let repeats = !last.hidden && *this.entry == *last.entry;
    position_by(repeats, &this.locator, &last.locator)
}

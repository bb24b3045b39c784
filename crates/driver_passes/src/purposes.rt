//! The purposes of cites.
ghost use Rattle.std.specs.Prelude.{◌≡◌};
ghost use Rattle.driver_passes.specs.Purposes.{has_no_purpose};
ghost use Rattle.driver_passes.specs.RendersView.{items_view};

use crate::renders::SpeculativeItemRender;

/// Whether no cite is written for a purpose of its own.
pub fn has_no_purpose<T, P>(items: &[SpeculativeItemRender<'_, T, P>]) -> bool
    ensures { result ≡ has_no_purpose (items_view items.now) }
{
    for item in items {
        if item.purpose.is_some() {
            return false;
        }
    }
    true
}

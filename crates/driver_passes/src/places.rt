//! The places of a request's items.
ghost use Rattle.std.specs.Prelude.{◌≡◌};
ghost use Rattle.driver_passes.specs.Request.{placed_from};
ghost use Rattle.driver_passes.specs.RequestView.{cites_view};

use crate::item::CitationItem;

/// Sets each item's place to where it stands.
pub fn number_items<'a, T, P>(items: &mut [CitationItem<'a, T, P>])
    ensures { cites_view items.new ≡ placed_from 0 (cites_view items.old) }
{
    for (k, item) in items.iter_mut().enumerate() {
        item.initial_idx = k;
    }
}

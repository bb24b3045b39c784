//! The cites at places.
ghost use Rattle.std.specs.Prelude.{◌≡◌, Some, option_map};
ghost use Rattle.value_styles.specs.StyleView.{style_view};
ghost use Rattle.rounds_ambiguity.specs.Members.{member_at};
ghost use Rattle.driver_passes.specs.Places.{IsPlace};
ghost use Rattle.driver_passes.specs.RendersView.{item_view, renders_view};

use csl_base::style::IndependentStyle;
use driver_passes::renders::{SpeculativeCiteRender, SpeculativeItemRender};

/// The cite at a place.
pub(crate) fn member_at<'x, 'a, T, P>(
    cites: &'x [SpeculativeCiteRender<'_, 'a, T, P>],
    place: (usize, usize),
) -> &'x SpeculativeItemRender<'a, T, P>
    requires exists { IsPlace (renders_view cites.now) place }
    ensures { option_map (λ m. m.item) (member_at (renders_view cites.now) place)
        ≡ Some (item_view result.now) }
{
    let (request, cite) = place;
    &cites[request].items[cite]
}

/// The style of the cite at a place.
pub(crate) fn style_at<'a, T, P>(
    cites: &[SpeculativeCiteRender<'_, 'a, T, P>],
    place: (usize, usize),
) -> &'a IndependentStyle
    requires exists { IsPlace (renders_view cites.now) place }
    ensures { option_map (λ m. m.style) (member_at (renders_view cites.now) place)
        ≡ Some (style_view result.now) }
{
    let (request, _) = place;
    cites[request].request.style()
}

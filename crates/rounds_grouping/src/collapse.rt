//! Collapsing, by what a style asks for (CSL 1.0.2, cite collapsing).
ghost use Rattle.std.specs.Prelude.{◌≡◌, option_map};
ghost use Rattle.value_styles.specs.StyleView.{citation_view};
ghost use Rattle.driver_passes.specs.RendersView.{render_view};
ghost use Rattle.rounds_grouping.specs.Collapsed.{collapsed, collapsed_finally};
ghost use Rattle.rounds_grouping.specs.NumberLaws.{CanBeReadBack};
ghost use Rattle.rounds_grouping.specs.Stretches.{after_collapse};

use crate::numbers::collapse_numbers;
use crate::years::collapse_years;
use csl_base::style::{Citation, Collapse};
use driver_passes::purposes::has_no_purpose;
use driver_passes::renders::SpeculativeCiteRender;

/// Collapses the cites of a request, as `collapse_items` does, where none of them has a purpose.
///
/// It takes no memory.
pub fn collapse_cites<T, P>(render: &mut SpeculativeCiteRender<'_, '_, T, P>)
    ensures { render_view render.new ≡ collapsed_finally (render_view render.old) }
{
    if has_no_purpose(&render.items) {
        collapse_items(render);
    }
}

/// Draws the cites of a request together as its style asks for (CSL 1.0.2, `collapse`). Only hidden
/// flags, overrides of delimiters and verdicts change; nothing does where the style has no
/// collapse.
///
/// By citation numbers: of a run of adjacent cites that show numbers which rise by one, none of
/// them hidden, and that is as long as can be, the inner ones are hidden, and where there are any
/// an en dash stands before the last. The first cite of a run right behind such a one gets the
/// after-collapse delimiter, else the layout's.
///
/// By years: of adjacent cites of one group each but the first gets the cite group delimiter and is
/// cut to its date; by suffixes one with a suffix other than the first gets the year-suffix
/// delimiter, else the cite group delimiter, and is cut to the suffix. The cite behind two or more
/// of one group gets the after-collapse delimiter, else the layout's. Ranges of suffixes are
/// treated as years.
///
/// It takes no memory. Purposes aren't looked at.
pub fn collapse_items<T, P>(render: &mut SpeculativeCiteRender<'_, '_, T, P>)
    ensures collapsed { render_view render.new ≡ collapsed (render_view render.old) }
    ensures laws { let cites = (render_view render.old).items in
        CanBeReadBack cites (render_view render.new).items
        (render_view render.old).request.style.citation.collapse }
{
    let citation = &render.request.style().citation;
    match citation.collapse {
        Some(Collapse::CitationNumber) => {
            collapse_numbers(&mut render.items, after_collapse(citation))
        }
        Some(Collapse::Year) | Some(Collapse::YearSuffixRanged) => {
            collapse_years(&mut render.items, citation, false)
        }
        Some(Collapse::YearSuffix) => collapse_years(&mut render.items, citation, true),
        None => {}
    }
}

/// What stands before a cite that follows collapsed ones.
pub(crate) fn after_collapse(citation: &Citation) -> Option<&str>
    ensures { option_map (λ s. s.now) result ≡ after_collapse (citation_view citation.now) }
{
    let layout = citation.layout.delimiter.as_deref();
    citation.after_collapse_delimiter.as_deref().or(layout)
}

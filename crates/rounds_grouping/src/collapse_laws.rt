//! Laws of collapsing, for every list of cites.
ghost use Rattle.driver_passes.specs.Renders.{CiteRender};
ghost use Rattle.rounds_grouping.specs.Collapsed.{collapsed};
ghost use Rattle.rounds_grouping.specs.NumberLaws.{CanBeReadBack};

/// What collapsing hides of the cites of every request can be read back.
pub fn collapsed_can_be_read_back<T, P>()
    ensures { (render : CiteRender T P)
        → CanBeReadBack render.items (collapsed render).items
        render.request.style.citation.collapse }
{}

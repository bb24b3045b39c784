//! Laws of grouping, for every list of cites.
ghost use Rattle.std.specs.Prelude.{ℕ, List, Option, length};
ghost use Rattle.std.specs.List.{range_with_len};
ghost use Rattle.std.specs.List.Sorted.{IsPermutation};
ghost use Rattle.value_trees.specs.declared.elem.Elem.{Elem};
ghost use Rattle.driver_passes.specs.Renders.{CiteRender, ItemRender};
ghost use Rattle.rounds_grouping.specs.Blocks.{final_order, grouped, grouped_cites, is_grouped};
ghost use Rattle.rounds_grouping.specs.FinalOrder.{HasFinalOrder};
ghost use Rattle.rounds_grouping.specs.Laws.{IsInFinalOrder, StandsTogether, places_with};

/// Each place of a request stands in the final order once; cites with equal first names elements
/// stand together, in the request's order; and grouping puts the cites in that order.
pub fn final_order_laws<T, P>()
    ensures once { (cites : List (ItemRender T P))
        → IsPermutation (range_with_len 0 (length cites)) (final_order cites) }
    ensures together { (cites : List (ItemRender T P)) (names : Elem)
        → StandsTogether (final_order cites) (places_with cites names) }
    ensures ordered { (cites : List (ItemRender T P)) (delimiter : Option (List ℕ))
        → IsInFinalOrder cites (grouped_cites delimiter cites) }
{}

/// The cites of every request have a final order after grouping.
pub fn grouped_in_final_order<T, P>()
    ensures { (render : CiteRender T P)
        → HasFinalOrder (is_grouped render.request.style.citation) render.items
        (grouped render).items }
{}

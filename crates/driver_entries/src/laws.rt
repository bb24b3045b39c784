//! Laws of the numbers, for every list of requests.
ghost use Rattle.std.specs.Prelude.{List, ℕ, Option};
ghost use Rattle.driver_entries.specs.Entries.{bibliography_order};
ghost use Rattle.driver_entries.specs.Laws.{HoldsEachOnce, NumbersWithoutGaps};

use csl_base::entry::EntryLike;

/// Each cited entry is in the bibliography once, and nothing else is.
pub fn bibliography_holds_each_once<T: EntryLike>()
    ensures { (order : Option (List T)) (cited : List T) → HoldsEachOnce T.eq order cited }
{}

/// The numbers of the bibliography's entries are the offset and those that follow.
pub fn numbers_have_no_gaps<T: EntryLike>()
    ensures { (offset : ℕ) (order : Option (List T)) (cited : List T)
        → NumbersWithoutGaps T.eq offset (bibliography_order T.eq order cited) }
{}

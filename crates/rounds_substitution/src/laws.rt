//! Laws of substitution, for every list of items.
ghost use Rattle.rounds_substitution.specs.Laws.{BaseIsLatest, FirstStays, OnlyNamesChange};

/// What substitution leaves as it was: all of the first item, each key, and of each tree all but
/// the children of its first names element. And what is compared with: the names element of the
/// latest item before that has one and wasn't replaced.
pub fn substitution_laws()
    ensures first_stays { FirstStays }
    ensures only_names_change { OnlyNamesChange }
    ensures base_is_latest { BaseIsLatest }
{}

//! Marks that aren't the driver's, in its trees.
use cite_pieces::piece::Mark;
use csl_base::elem::ElemMeta;

/// From this place on, an entry of a tree is none of a document: a part of another mark is one, so
/// that the driver hands it through. No document has so many entries.
const FIRST_OTHER: usize = 1 << 48;

/// The place of the entry that stands for what is marked by this number as anything else; none for
/// 0, which trees leave out.
pub(crate) fn entry_of_other(number: usize) -> Option<usize> {
    if number == 0 {
        return None;
    }
    Some(FIRST_OTHER.saturating_add(number))
}

/// The mark that an element of a tree stands for, if it isn't one of the driver's.
pub(crate) fn other_of(meta: &ElemMeta) -> Option<Mark> {
    match meta {
        ElemMeta::Entry(place) => place.checked_sub(FIRST_OTHER).map(Mark::Other),
        _ => None,
    }
}

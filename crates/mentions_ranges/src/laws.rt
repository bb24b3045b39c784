//! Laws of collapsing, for every list of cites.
ghost use Rattle.std.specs.Prelude.{Bool, List};
ghost use Rattle.mentions_ranges.specs.declared.numbers.NumberedCite.{NumberedCite};
ghost use Rattle.mentions_ranges.specs.declared.suffixes.SuffixedCite.{SuffixedCite};
ghost use Rattle.mentions_ranges.specs.ReadBack.{NumberRangesCanBeReadBack, RangedAreShown, SuffixRangesCanBeReadBack};

/// What ranges of citation numbers hide can be read back, if no cite that its caller hides has a
/// number: where a range hid one of the cites between two shown ones, it hid them all, their
/// numbers are exactly those strictly between, and an en dash stands before the second.
pub fn number_ranges_can_be_read_back()
    ensures { (cites : List NumberedCite) → RangedAreShown cites
        → NumberRangesCanBeReadBack cites }
{}

/// What ranges of suffixes hide can be read back: hidden cites are exactly those with suffixes
/// strictly between those of the shown neighbours, all of one class, and an en dash stands before
/// the second. Where ranges aren't asked for nothing is hidden.
pub fn suffix_ranges_can_be_read_back()
    ensures { (ranges : Bool) (cites : List SuffixedCite)
        → SuffixRangesCanBeReadBack ranges cites }
{}

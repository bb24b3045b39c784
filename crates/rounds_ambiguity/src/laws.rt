//! Laws of ambiguous groups and of the marks of their cites, for every document.
ghost use Rattle.std.specs.Prelude.{List};
ghost use Rattle.rounds_ambiguity.specs.MarkLaws.{
  AmbiguousStandTogether,
  ChooseMarksGoOn,
  GroupsHaveNoSuffix,
  SuffixMarksGoOn,
  SuffixesCountEntries,
};
ghost use Rattle.rounds_ambiguity.specs.Members.{Member};
ghost use Rattle.driver_passes.specs.Renders.{CiteRender};

use csl_base::entry::EntryLike;

/// A law: the cites of ambiguous groups have no suffix; and two cites that read alike, of different
/// entries and without suffix, stand in one group.
pub fn ambiguous_stand_together<T: EntryLike, P>()
    ensures without_suffix { (cites : List (CiteRender T P)) → GroupsHaveNoSuffix T.eq cites }
    ensures together { (cites : List (CiteRender T P)) → AmbiguousStandTogether T.eq cites }
{}

/// A law: of cites without suffix each choose mark and each suffix mark stands at one of them,
/// whose state goes on to it.
pub fn choose_and_suffix_go_on<T: EntryLike, P>()
    ensures choose { (cites : List (Member T P)) → ChooseMarksGoOn T.eq cites }
    ensures suffix { (cites : List (Member T P)) → SuffixMarksGoOn T.eq cites }
{}

/// A law: suffixes are counted by entry. The distinct entries of cites get 0, 1, 2 and on, in the
/// order of their first cites, where the marks stand.
pub fn suffixes_count_entries<T: EntryLike, P>()
    ensures { (cites : List (Member T P)) → SuffixesCountEntries T.eq cites }
{}

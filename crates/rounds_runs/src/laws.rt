//! Laws of the whole run, for every document, in both modes.
ghost use Rattle.std.specs.Prelude.{List};
ghost use Rattle.driver_passes.specs.Renders.{CiteRender};
ghost use Rattle.driver_passes.specs.Request.{Request};
ghost use Rattle.driver_passes.specs.declared.first.FirstProperties.{FirstProperties};
ghost use Rattle.rounds_runs.specs.FirstRenders.{AreBegun, first_renders};
ghost use Rattle.rounds_runs.specs.RunLaws.{
  IsLawful,
  NothingLeft,
  RanksRise,
  RoundsMark,
  StatesGoOn,
  SuffixesStay,
};
ghost use Rattle.rounds_runs.specs.Tables.{rounds, tables};
ghost use Rattle.rounds_runs.specs.declared.mode.RoundMode.{RoundMode};
ghost use Rattle.driver_writers.specs.Writing.{Writing};

use csl_base::entry::EntryLike;

/// All of these laws hold of each run that begins with first renders.
pub fn runs_are_lawful<T: EntryLike, P>()
    ensures { (writing : Writing T P) (mode : RoundMode) (requests : List (Request T P))
        (properties : List (List FirstProperties))
        → let firsts = first_renders writing requests properties in
        IsLawful mode T.eq writing firsts (tables mode T.eq writing firsts)
        (rounds mode T.eq writing firsts) }
{
    states_go_on::<T, P>();
    rounds_mark::<T, P>();
    suffixes_stay::<T, P>();
    nothing_is_left::<T, P>();
    ranks_rise::<T, P>();
}

/// A law: in each table of a run equal entries have one state, and each cite is rendered with the
/// state of its entry; from each table to the next the state of each entry goes on, also where an
/// entry stands in several groups; no mark of a round is greater than the state that the round
/// leaves; and an entry keeps its state, or gets that of one of its marks.
pub fn states_go_on<T: EntryLike, P>()
    ensures { (writing : Writing T P) (mode : RoundMode) (firsts : List (CiteRender T P))
        → AreBegun firsts
        → StatesGoOn mode T.eq writing firsts (tables mode T.eq writing firsts) }
{
    driver_lookup::laws::states_have_a_greatest();
    driver_lookup::laws::states_go_on();
    rounds_names::laws::name_marks_go_on::<T, P>();
    rounds_ambiguity::laws::ambiguous_stand_together::<T, P>();
    rounds_ambiguity::laws::choose_and_suffix_go_on::<T, P>();
}

/// A law: each round that is counted has a mark, and in mode three these are three at most.
pub fn rounds_mark<T: EntryLike, P>()
    ensures { (writing : Writing T P) (mode : RoundMode) (firsts : List (CiteRender T P))
        → RoundsMark mode T.eq writing firsts (tables mode T.eq writing firsts) }
{}

/// A law: suffixes stay. An entry with a suffix has it in all later tables, and is in no ambiguous
/// group. In a group that gets suffixes the distinct entries have 0, 1, 2 and on in the next table,
/// in the order of their first cites there. An entry gets a suffix in no other way than in such a
/// group, and in mode three there is one such group in a round.
pub fn suffixes_stay<T: EntryLike, P>()
    ensures { (writing : Writing T P) (mode : RoundMode) (firsts : List (CiteRender T P))
        → AreBegun firsts
        → SuffixesStay mode T.eq writing firsts (tables mode T.eq writing firsts) }
{
    driver_lookup::laws::states_have_a_greatest();
    driver_lookup::laws::states_go_on();
    driver_entries::laws::bibliography_holds_each_once::<T>();
    rounds_names::laws::name_marks_go_on::<T, P>();
    rounds_ambiguity::laws::ambiguous_stand_together::<T, P>();
    rounds_ambiguity::laws::choose_and_suffix_go_on::<T, P>();
    rounds_ambiguity::laws::suffixes_count_entries::<T, P>();
}

/// A law: only the ambiguous are marked, and nothing is left. An entry that is in no ambiguous
/// group of a table but the last has no state in the last one. Where the rounds came to an end, as
/// they always do in mode full, no group of the last table can be marked (in mode full by no mark
/// that counts), so two ambiguous cites of a document that shows dates are of styles that add no
/// suffixes.
pub fn nothing_is_left<T: EntryLike, P>()
    ensures { (writing : Writing T P) (mode : RoundMode) (firsts : List (CiteRender T P))
        → AreBegun firsts
        → NothingLeft mode T.eq writing firsts (tables mode T.eq writing firsts)
        (rounds mode T.eq writing firsts) }
{
    driver_lookup::laws::states_have_a_greatest();
    driver_lookup::laws::states_go_on();
    rounds_names::laws::name_marks_go_on::<T, P>();
    rounds_ambiguity::laws::ambiguous_stand_together::<T, P>();
    rounds_ambiguity::laws::choose_and_suffix_go_on::<T, P>();
}

/// A law of mode full: from each table to the next no entry's rank falls and that of some cited
/// entry rises; so of n distinct entries, where no first name has more than F forms, at most n
/// times 3F + 3 rounds mark.
pub fn ranks_rise<T: EntryLike, P>()
    ensures { (writing : Writing T P) (firsts : List (CiteRender T P)) → AreBegun firsts
        → RanksRise RoundMode.Full T.eq writing firsts (tables RoundMode.Full T.eq writing firsts) }
{}

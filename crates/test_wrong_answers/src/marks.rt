//! States that no mark gives, and rounds that mark nothing.
ghost use Rattle.std.specs.Prelude.{◌≡◌, None, Some, slice_index_or};
ghost use Rattle.driver_lookup.specs.declared.state.DisambiguateState.{DisambiguateState};
ghost use Rattle.rounds_runs.specs.Rounds.{no_states};
ghost use Rattle.rounds_runs.specs.RunLaws.{IsLawful, RoundsMark, StatesGoOn, SuffixesStay};
ghost use Rattle.rounds_runs.specs.Tables.{tables};
ghost use Rattle.rounds_runs.specs.declared.mode.RoundMode.{RoundMode};
ghost use Rattle.test_wrong_answers.specs.Marks.{
  both_chosen,
  both_seven,
  never_marked,
  twice_empty,
  undated,
};
ghost use Rattle.test_wrong_answers.specs.Rounds.{in_two_groups};
ghost use Rattle.test_wrong_answers.specs.Samples.{entry};
ghost use Rattle.test_wrong_answers.specs.Silent.{same_sample, writing};

use crate::sample::Sample;
use rounds_runs::laws::{nothing_is_left, ranks_rise, rounds_mark, states_go_on, suffixes_stay};

/// Two undated works read alike, so that nothing marks, and both get the suffix 7 in a round that
/// never was: no entry is to get a state, and no round is to be counted.
pub fn both_get_seven()
    ensures refuted { (mode : RoundMode)
        → ¬ IsLawful mode same_sample writing undated both_seven 1 }
    ensures states { (mode : RoundMode) → ¬ StatesGoOn mode same_sample writing undated both_seven }
    ensures rounds { (mode : RoundMode) → ¬ RoundsMark mode same_sample writing undated both_seven }
    ensures suffixes { (mode : RoundMode)
        → ¬ SuffixesStay mode same_sample writing undated both_seven }
    ensures right { (mode : RoundMode) → IsLawful mode same_sample writing undated never_marked 0 }
{
    states_go_on::<Sample, u64>();
    rounds_mark::<Sample, u64>();
    suffixes_stay::<Sample, u64>();
    nothing_is_left::<Sample, u64>();
    ranks_rise::<Sample, u64>();
}

/// A round in which nothing marks is counted, though it leaves all states as they were.
pub fn counted_without_marks()
    ensures refuted { (mode : RoundMode)
        → ¬ IsLawful mode same_sample writing undated twice_empty 1 }
    ensures rounds { (mode : RoundMode)
        → ¬ RoundsMark mode same_sample writing undated twice_empty }
{}

/// Of two entries whose cites read alike and test `disambiguate`, both are chosen: the first is to
/// get no state, since no mark is for it.
pub fn chosen_without_mark()
    ensures refuted { ¬ StatesGoOn RoundMode.Three same_sample writing in_two_groups both_chosen }
    ensures right { StatesGoOn RoundMode.Three same_sample writing in_two_groups
        (tables RoundMode.Three same_sample writing in_two_groups) }
    ensures right_states { let next = slice_index_or
        (tables RoundMode.Three same_sample writing in_two_groups) 1 no_states in
        (next (entry 0) ≡ Some DisambiguateState.Choose) × (next (entry 1) ≡ None) }
{
    states_go_on::<Sample, u64>();
}

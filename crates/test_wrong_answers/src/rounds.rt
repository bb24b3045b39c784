//! States that rounds give to the wrong entries.
ghost use Rattle.std.specs.Prelude.{◌≡◌, [], ◌∷◌, None, Some, map, slice_index_or};
ghost use Rattle.driver_lookup.specs.declared.state.DisambiguateState.{DisambiguateState};
ghost use Rattle.rounds_runs.specs.Rounds.{no_states, told_by};
ghost use Rattle.rounds_runs.specs.RunLaws.{NothingLeft, StatesGoOn, SuffixesStay};
ghost use Rattle.rounds_runs.specs.Tables.{rounds, tables};
ghost use Rattle.rounds_runs.specs.declared.mode.RoundMode.{RoundMode};
ghost use Rattle.test_wrong_answers.specs.Rounds.{
  alike,
  both_shown,
  by_cite,
  in_two_groups,
  on_every_entry,
  overwritten_at_once,
  overwritten_later,
  unlike,
};
ghost use Rattle.test_wrong_answers.specs.Samples.{entry};
ghost use Rattle.test_wrong_answers.specs.Silent.{same_sample, writing};

use crate::sample::Sample;
use rounds_runs::laws::{nothing_is_left, states_go_on, suffixes_stay};

/// Suffixes are counted by cite: of three cites that read alike, two of one entry and one of
/// another, the entries get 1 and 2, where they are to get 0 and 1.
pub fn suffix_by_cite()
    ensures refuted { ¬ SuffixesStay RoundMode.Three same_sample writing alike by_cite }
    ensures right { SuffixesStay RoundMode.Three same_sample writing alike
        (tables RoundMode.Three same_sample writing alike) }
    ensures right_states { let next = slice_index_or
        (tables RoundMode.Three same_sample writing alike) 1 no_states in
        (next (entry 0) ≡ Some (DisambiguateState.YearSuffix 0))
        × (next (entry 1) ≡ Some (DisambiguateState.YearSuffix 1)) }
{
    suffixes_stay::<Sample, u64>();
}

/// Each entry gets a suffix, though its cites read like no other: no entry is to get a state.
pub fn state_on_every_entry()
    ensures refuted { ¬ NothingLeft RoundMode.Three same_sample writing unlike on_every_entry 1 }
    ensures right { NothingLeft RoundMode.Three same_sample writing unlike (no_states ∷ []) 0 }
{
    nothing_is_left::<Sample, u64>();
}

/// In one round a choice disambiguates an entry in one group, and names do in the next group. The
/// names are written over the choice: the choice is the greater one, and is to stay.
pub fn later_mark_overwrites()
    ensures refuted { ¬ StatesGoOn RoundMode.Three same_sample writing in_two_groups
        overwritten_at_once }
    ensures right { StatesGoOn RoundMode.Three same_sample writing in_two_groups
        (tables RoundMode.Three same_sample writing in_two_groups) }
    ensures right_state { let next = slice_index_or
        (tables RoundMode.Three same_sample writing in_two_groups) 1 no_states in
        next (entry 0) ≡ Some DisambiguateState.Choose }
{
    states_go_on::<Sample, u64>();
}

/// In a later round names are written over the choice of an earlier one.
pub fn later_round_overwrites()
    ensures refuted { ¬ StatesGoOn RoundMode.Three same_sample writing in_two_groups
        overwritten_later }
{}

//! Runs of numbers that collapsing draws over what isn't one.
ghost use Rattle.std.specs.Prelude.{Some};
ghost use Rattle.value_styles.specs.declared.style.Collapse.{Collapse};
ghost use Rattle.rounds_grouping.specs.NumberLaws.{CanBeReadBack};
ghost use Rattle.test_wrong_answers.specs.Runs.{
  over_the_gap,
  over_the_hidden_cite,
  with_a_gap,
  with_a_hidden_cite,
};

use crate::sample::Sample;
use rounds_grouping::collapse_laws::collapsed_can_be_read_back;

/// The middle of 1, 2 and 4 is hidden, as if they were a run: between 1 and 4 the reader finds 3.
/// They stay as they are.
pub fn run_over_a_gap()
    ensures refuted { ¬ CanBeReadBack with_a_gap over_the_gap (Some Collapse.CitationNumber) }
    ensures right { CanBeReadBack with_a_gap with_a_gap (Some Collapse.CitationNumber) }
{
    collapsed_can_be_read_back::<Sample, u64>();
}

/// Of 1 to 5 the caller hid 3, and 1 to 5 collapses: between 1 and 5 the reader finds 3.
/// They stay as they are.
pub fn run_over_a_hidden_cite()
    ensures refuted { ¬ CanBeReadBack with_a_hidden_cite over_the_hidden_cite
        (Some Collapse.CitationNumber) }
    ensures right { CanBeReadBack with_a_hidden_cite with_a_hidden_cite
        (Some Collapse.CitationNumber) }
{
    collapsed_can_be_read_back::<Sample, u64>();
}

//! Answers that the laws of the driver alone would allow. The further laws refuse them.
ghost use Rattle.std.specs.Prelude.{◌≡◌, List, [], ◌∷◌, nat_eq};
ghost use Rattle.rounds_grouping.specs.Stretches.{after_collapse};
ghost use Rattle.csl_driver.specs.declared.account.Account.{Account};
ghost use Rattle.rounds_grouping.specs.Blocks.{grouped};
ghost use Rattle.rounds_runs.specs.Rounds.{StateTable, no_states};
ghost use Rattle.rounds_runs.specs.declared.mode.RoundMode.{RoundMode};
ghost use Rattle.rounds_laws.specs.BlockLaws.{FormBlocks};
ghost use Rattle.rounds_laws.specs.CollapseLaws.{NumbersCollapse, YearsCollapse, cut_by};
ghost use Rattle.rounds_laws.specs.FurtherLaws.{CountsRenders};
ghost use Rattle.test_wrong_answers.specs.Counts.{sample_job};
ghost use Rattle.test_wrong_answers.specs.Further.{
  after,
  apart,
  backwards,
  both_cut,
  by_year,
  dashed_apart,
  in_a_row,
  of_one_block,
  row_drawn,
  run_together,
  second_cut,
};
ghost use Rattle.test_wrong_answers.specs.Orders.{as_cited};
ghost use Rattle.test_wrong_answers.specs.Samples.{request_of};
ghost use Rattle.test_wrong_answers.specs.Silent.{same_sample, writing};

use crate::sample::Sample;
use rounds_laws::laws::{grouped_cites_form_blocks, what_is_to_collapse_does};

/// A dash stands between 1 and 5, though nothing is hidden: a reader finds 2, 3 and 4.
pub fn dash_without_hidden_numbers()
    ensures refuted { ¬ NumbersCollapse apart dashed_apart after }
    ensures right { NumbersCollapse apart apart after }
{
    what_is_to_collapse_does::<Sample, u64>();
}

/// The numbers 1, 2 and 3 don't collapse.
pub fn numbers_not_collapsed()
    ensures refuted { ¬ NumbersCollapse in_a_row in_a_row after }
    ensures right { NumbersCollapse in_a_row row_drawn after }
{
    what_is_to_collapse_does::<Sample, u64>();
}

/// Where years collapse both cites of a block lose their names.
pub fn years_alone()
    ensures refuted { ¬ YearsCollapse of_one_block both_cut (cut_by by_year)
        (after_collapse by_year) }
    ensures right { YearsCollapse of_one_block second_cut (cut_by by_year)
        (after_collapse by_year) }
{
    what_is_to_collapse_does::<Sample, u64>();
}

/// The block of the first cite follows the other one; or a block follows the delimiter that belongs
/// between the cites of one block.
pub fn blocks_in_another_order()
    ensures backwards { ¬ FormBlocks (request_of as_cited) (request_of backwards) }
    ensures run_together { ¬ FormBlocks (request_of as_cited) (request_of run_together) }
    ensures right { FormBlocks (request_of as_cited) (grouped (request_of as_cited)) }
{
    grouped_cites_form_blocks::<Sample, u64>();
}

/// An account has 6 renderings of two requests of one cite each, though no round marked, and there
/// is no bibliography.
pub fn more_renders_than_there_were()
    ensures refuted { (tables : List (StateTable Sample)) (account : Account Sample)
        → account.rounds ≡ 0 → account.renders ≡ 6
        → ¬ CountsRenders same_sample nat_eq writing RoundMode.Three sample_job tables account }
    ensures right { (account : Account Sample) → account.rounds ≡ 0 → account.renders ≡ 4
        → CountsRenders same_sample nat_eq writing RoundMode.Three sample_job (no_states ∷ [])
        account }
{}

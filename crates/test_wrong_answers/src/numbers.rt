//! Numbers that aren't those of the entries, and renderings that are too many.
ghost use Rattle.std.specs.Prelude.{◌≡◌, ◌-◌, ◌^◌, min, nat_eq};
ghost use Rattle.csl_driver.specs.Account.{cost};
ghost use Rattle.csl_driver.specs.AnswerLaws.{AreInOrder, HaveNumbersOnce};
ghost use Rattle.rounds_runs.specs.declared.mode.RoundMode.{RoundMode};
ghost use Rattle.test_wrong_answers.specs.Counts.{sample_job};
ghost use Rattle.test_wrong_answers.specs.Numbers.{
  after_grouping,
  entries,
  numbers_before,
  numbers_of_cites,
  right_numbers,
};
ghost use Rattle.test_wrong_answers.specs.Silent.{same_sample, writing};

/// Numbers count cites: where the first of three entries is cited twice, they are 0, 2 and 3.
pub fn numbers_count_cites()
    ensures refuted { ¬ HaveNumbersOnce same_sample 0 entries numbers_of_cites }
    ensures right { HaveNumbersOnce same_sample 0 entries right_numbers }
{}

/// Numbers are taken before cites are grouped: they are 0, 1 and 2 by the order of the requests,
/// and the entries in their final order have 0, 2 and 1.
pub fn numbers_before_grouping()
    ensures refuted { ¬ AreInOrder same_sample 0 entries numbers_before after_grouping }
    ensures right { AreInOrder same_sample 0 entries right_numbers after_grouping }
{}

/// All items are rendered once more in a round that marks nothing: two requests of one cite each
/// take 6 renderings, where they are to take 4.
pub fn extra_renders()
    ensures refuted { ¬ (6
        ≡ min (cost same_sample nat_eq writing RoundMode.Three sample_job) (2 ^ 128 - 1)) }
    ensures right { 4 ≡ min (cost same_sample nat_eq writing RoundMode.Three sample_job)
        (2 ^ 128 - 1) }
{}

//! Citations that show other cites than those of their requests.
ghost use Rattle.std.specs.Prelude.{nat_eq};
ghost use Rattle.csl_driver.specs.AnswerLaws.{KeepsLaws};
ghost use Rattle.csl_driver.specs.declared.account.Account.{Account};
ghost use Rattle.driver_entries.specs.Entries.{distinct};
ghost use Rattle.driver_passes.specs.Request.{cited};
ghost use Rattle.rounds_runs.specs.declared.mode.RoundMode.{RoundMode};
ghost use Rattle.test_wrong_answers.specs.Cites.{
  both_the_first,
  collapsed_all_the_same,
  each_its_own,
  hidden_one,
  nothing_shown,
  one_by_one,
  shown_after_all,
  two,
  with_a_purpose,
};
ghost use Rattle.test_wrong_answers.specs.Letters.{IsPlainAccount, letters};
ghost use Rattle.test_wrong_answers.specs.Silent.{same_sample};

use crate::sample::Sample;
use csl_driver::laws::answers_keep_laws;

/// Each cite is one of the first entry: two requests, for A and for B, both show A. With no account
/// do the laws hold of this.
pub fn cites_of_one_entry()
    ensures refuted { (account : Account Sample)
        → ¬ KeepsLaws same_sample nat_eq letters RoundMode.Three two (both_the_first, account) }
    ensures right { (account : Account Sample)
        → IsPlainAccount 4 (distinct same_sample (cited two.requests)) account
        → KeepsLaws same_sample nat_eq letters RoundMode.Three two (each_its_own, account) }
{
    answers_keep_laws::<Sample, u64>();
}

/// The only cite of a request is shown, though the caller hid it.
pub fn shown_in_spite_of_the_caller()
    ensures refuted { (account : Account Sample)
        → ¬ KeepsLaws same_sample nat_eq letters RoundMode.Three hidden_one
        (shown_after_all, account) }
    ensures right { (account : Account Sample)
        → IsPlainAccount 2 (distinct same_sample (cited hidden_one.requests)) account
        → KeepsLaws same_sample nat_eq letters RoundMode.Three hidden_one (nothing_shown, account) }
{
    answers_keep_laws::<Sample, u64>();
}

/// The numbers of three cites collapse, though the last of them has a purpose of its own.
pub fn collapsed_in_spite_of_purpose()
    ensures refuted { (account : Account Sample)
        → ¬ KeepsLaws same_sample nat_eq letters RoundMode.Three with_a_purpose
        (collapsed_all_the_same, account) }
    ensures right { (account : Account Sample)
        → IsPlainAccount 6 (distinct same_sample (cited with_a_purpose.requests)) account
        → KeepsLaws same_sample nat_eq letters RoundMode.Three with_a_purpose
        (one_by_one, account) }
{
    answers_keep_laws::<Sample, u64>();
}

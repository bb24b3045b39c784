//! Accounts and bibliographies that lack entries, or have others.
ghost use Rattle.std.specs.Prelude.{◌≡◌, ◌≢◌, ℕ, List, [], ◌∷◌, nat_eq};
ghost use Rattle.std.specs.declared.num.NonZeroI16.{NonZeroI16};
ghost use Rattle.driver_assembly.specs.declared.rendered.Rendered.{Rendered};
ghost use Rattle.csl_driver.specs.Answer.{Job};
ghost use Rattle.csl_driver.specs.AnswerLaws.{KeepsLaws};
ghost use Rattle.csl_driver.specs.declared.account.Account.{Account};
ghost use Rattle.driver_entries.specs.Entries.{distinct};
ghost use Rattle.driver_passes.specs.Request.{cited};
ghost use Rattle.rounds_runs.specs.declared.mode.RoundMode.{RoundMode};
ghost use Rattle.driver_writers.specs.Writing.{Writing};
ghost use Rattle.test_wrong_answers.specs.Letters.{IsPlainAccount, letters};
ghost use Rattle.test_wrong_answers.specs.Listed.{listing, two_listed};
ghost use Rattle.test_wrong_answers.specs.Silent.{same_sample};

use crate::sample::Sample;
use csl_base::entry::EntryLike;
use csl_driver::laws::answers_keep_laws;

/// The account has no entries, though something is cited. It belongs to no answer at all.
pub fn empty_account<T: EntryLike, P: Eq>()
    ensures refuted { (writing : Writing T P) (mode : RoundMode) (job : Job T P) (answer : Rendered)
        (account : Account T) → account.entries.items ≡ [] → cited job.requests ≢ []
        → ¬ KeepsLaws T.eq P.eq writing mode job (answer, account) }
{}

/// Of two cited entries, A and B, the bibliography lists A alone; or A, B and B again; or A and C.
pub fn wrong_entries_listed()
    ensures dropped { (spacing : NonZeroI16) (account : Account Sample)
        → ¬ KeepsLaws same_sample nat_eq letters RoundMode.Three (two_listed spacing)
        (listing spacing (0 ∷ []), account) }
    ensures doubled { (spacing : NonZeroI16) (account : Account Sample)
        → ¬ KeepsLaws same_sample nat_eq letters RoundMode.Three (two_listed spacing)
        (listing spacing (0 ∷ 1 ∷ 1 ∷ []), account) }
    ensures replaced { (spacing : NonZeroI16) (account : Account Sample)
        → ¬ KeepsLaws same_sample nat_eq letters RoundMode.Three (two_listed spacing)
        (listing spacing (0 ∷ 2 ∷ []), account) }
    ensures right { (spacing : NonZeroI16) (account : Account Sample)
        → IsPlainAccount 6 (distinct same_sample (cited (two_listed spacing).requests)) account
        → KeepsLaws same_sample nat_eq letters RoundMode.Three (two_listed spacing)
        (listing spacing (0 ∷ 1 ∷ []), account) }
{
    answers_keep_laws::<Sample, u64>();
}

//! Laws of what goes in and comes out, of how cites are disambiguated, and of every answer.
ghost use Rattle.driver_assembly.specs.declared.rendered.Rendered.{Rendered};
ghost use Rattle.csl_driver.specs.Answer.{Job};
ghost use Rattle.csl_driver.specs.AnswerLaws.{KeepsLaws};
ghost use Rattle.csl_driver.specs.CslLaws.{KeepsCslLaws};
ghost use Rattle.csl_driver.specs.CslPromised.{IsExactlyCsl};
ghost use Rattle.csl_driver.specs.Promised.{IsExactly};
ghost use Rattle.csl_driver.specs.declared.account.Account.{Account};
ghost use Rattle.csl_driver.specs.declared.csl_account.CslAccount.{CslAccount};
ghost use Rattle.rounds_runs.specs.declared.mode.RoundMode.{RoundMode};
ghost use Rattle.driver_writers.specs.Writing.{Writing};

use csl_base::entry::EntryLike;
pub use driver_assembly::laws::{answer_equality_decides, answers_copy_equal};
pub use driver_entries::laws::{bibliography_holds_each_once, numbers_have_no_gaps};
pub use driver_passes::laws::{
    bibliography_request_equality_decides, first_equality_decides, item_equality_decides,
    items_copy_equal, properties_equality_decides, request_equality_decides,
};
pub use rounds_ambiguity::laws::{
    ambiguous_stand_together, choose_and_suffix_go_on, suffixes_count_entries,
};
pub use rounds_grouping::collapse_laws::collapsed_can_be_read_back;
pub use rounds_grouping::laws::{final_order_laws, grouped_in_final_order};
pub use rounds_names::laws::name_marks_go_on;
pub use rounds_runs::laws::runs_are_lawful;

/// A law of every answer and its account, whatever is asked: there are tables of states, from the
/// empty one to the account's, along which states go on, suffixes stay, nothing is left, and (in
/// mode full) ranks rise; the entries of the account have the numbers from the offset on, each
/// once; and each citation comes from the cites of its request in a final order, whose collapsed
/// ranges can be read back.
pub fn answers_keep_laws<T: EntryLike, P: Eq>()
    ensures { (writing : Writing T P) (mode : RoundMode) (job : Job T P) (r : Rendered × Account T)
        → IsExactly T.eq P.eq writing mode job r → KeepsLaws T.eq P.eq writing mode job r }
{
    runs_are_lawful::<T, P>();
    bibliography_holds_each_once::<T>();
    numbers_have_no_gaps::<T>();
    grouped_in_final_order::<T, P>();
    collapsed_can_be_read_back::<T, P>();
}

/// A law of every answer where works are disambiguated as CSL 1.0.2 has it, and of its account,
/// whatever is asked: the entries of the account are the distinct ones that are cited, in the order
/// of the bibliography, with the numbers from the offset on, each once; entries whose later
/// mentions read alike have suffixes that count them, if the style of one of them adds any, and all
/// others have none; names that can disambiguate mentions do; the condition holds exactly where a
/// mention tested it and read as one of another entry; states grow, and only what is ambiguous is
/// disambiguated; each citation shows the cites of its request that aren't hidden, if there is
/// something to see of them, and each is given all that the account has of it; what ranges hide can
/// be read back; and the renderings and rounds have bounds.
pub fn csl_answers_keep_laws<T: EntryLike, P: Eq>()
    ensures { (writing : Writing T P) (job : Job T P) (r : Rendered × CslAccount T)
        → IsExactlyCsl T.eq P.eq writing job r → KeepsCslLaws T.eq job writing P.eq r }
{}

//! Further laws: of grouping and collapsing, for every list of cites; and of every answer in the
//! modes three and full.
ghost use Rattle.driver_assembly.specs.declared.rendered.Rendered.{Rendered};
ghost use Rattle.rounds_grouping.specs.Collapsed.{collapsed_finally};
ghost use Rattle.csl_driver.specs.Answer.{Job};
ghost use Rattle.csl_driver.specs.Promised.{IsExactly};
ghost use Rattle.csl_driver.specs.declared.account.Account.{Account};
ghost use Rattle.rounds_grouping.specs.Blocks.{grouped};
ghost use Rattle.driver_passes.specs.Renders.{CiteRender};
ghost use Rattle.rounds_runs.specs.declared.mode.RoundMode.{RoundMode};
ghost use Rattle.driver_writers.specs.Writing.{Writing};
ghost use Rattle.rounds_laws.specs.BlockLaws.{FormBlocks};
ghost use Rattle.rounds_laws.specs.CollapseLaws.{DoCollapse};
ghost use Rattle.rounds_laws.specs.FurtherLaws.{KeepsFurtherLaws};

use csl_base::entry::EntryLike;
use csl_driver::laws::answers_keep_laws;
use rounds_runs::laws::runs_are_lawful;

/// A law of every answer and its account in the modes three and full: besides the laws of
/// `answers_keep_laws`, and of the same cites, blocks stand in the order of their first cites, what
/// is to collapse does and nothing else, a dash means hidden numbers, names are left out only
/// after a cite of their block that keeps them, and no cite is rendered more often than twice and
/// once a round.
pub fn answers_keep_further_laws<T: EntryLike, P: Eq>()
    ensures { (writing : Writing T P) (mode : RoundMode) (job : Job T P) (r : Rendered × Account T)
        → IsExactly T.eq P.eq writing mode job r
        → KeepsFurtherLaws T.eq P.eq writing mode job r }
{
    answers_keep_laws::<T, P>();
    runs_are_lawful::<T, P>();
}

/// Where a style groups cites, the blocks stand in the order of their first cites in the request,
/// each cite of a block but the first follows the delimiter of groups, and blocks with names have
/// the indexes 0, 1, 2 and so on.
pub fn grouped_cites_form_blocks<T, P>()
    ensures { (render : CiteRender T P) → FormBlocks render (grouped render) }
{}

/// Where numbers collapse, exactly the inner ones of each range are hidden, and a dash means hidden
/// numbers; where years collapse, exactly the cites right after one of their own block are cut,
/// and all others keep their names.
pub fn what_is_to_collapse_does<T, P>()
    ensures { (render : CiteRender T P) → DoCollapse render (collapsed_finally render) }
{}

//! Mentions that are written as they repeat the cite before them.
ghost use Rattle.std.specs.Prelude.{◌≡◌, ◌∷◌, [], IfOk, OnOk};
ghost use Rattle.mentions_cited.specs.Cited.{first_task, task_repeated};
ghost use Rattle.mentions_cited.specs.Kept.{written_mention};
ghost use Rattle.driver_writers.specs.Desk.{after, desk};
ghost use Rattle.driver_writers.specs.Tasks.{cite_task};

use crate::asking::written_by;
use crate::kept::KeptOfMention;
use crate::means::{with_ibid, with_means};
use crate::mention::CiteMention;
use csl_base::entry::EntryLike;
use driver_lookup::state::{IbidState, IdentifierUsage};
use driver_writers::counter::Renders;
use driver_writers::writer::CiteWriter;
use mentions_groups::state::MentionState;
use std::alloc::Global;

/// What is kept of a mention in this state that repeats the cite before it in this way. The usage
/// is the one that its first writing noted.
///
/// # Errors
///
/// The writer's own.
pub fn write_repeated<T: EntryLike, P: Drop, W: CiteWriter<T, P>>(
    alloc: Global,
    mention: &CiteMention<'_, '_, T, P>,
    state: &MentionState,
    usage: IdentifierUsage,
    ibid: IbidState,
    writer: &mut W,
    counter: &mut Renders,
) -> Result<KeptOfMention, W::Error>
    ensures kept { IfOk result (λ k. (way : W.Way) → W.agrees writer.new way
        → k ≡ (written_mention ((W.state writer.old way).cite
        (task_repeated (first_task mention.now) state.now usage ibid))).kept) }
    ensures asked { OnOk result ((way : W.Way) → W.agrees writer.new way
        → desk (W.state writer.new way) counter.new
        ≡ after (cite_task (task_repeated (first_task mention.now) state.now usage ibid) ∷ [])
        (desk (W.state writer.old way) counter.old)) }
    ensures agreed { OnOk result ((way : W.Way) → W.agrees writer.new way
        → W.agrees writer.old way) }
{
    let properties = with_ibid(with_means(mention.properties, state, usage)?, ibid);
    let written = written_by(alloc, mention, &properties, writer, counter)?;
    Ok(written.kept)
}

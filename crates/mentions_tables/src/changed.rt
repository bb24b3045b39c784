//! Mentions that are written again, where a table changed their states.
ghost use Rattle.std.specs.Prelude.{◌≡◌, ◌≤◌, OnOk, flat_map, length};
ghost use Rattle.std.specs.List.{zip};
ghost use Rattle.mentions_tables.specs.Asked.{asked_for, first_kept, keeping, reading};
ghost use Rattle.mentions_tables.specs.Steps.{all_changed, is_changed, rekept, rewritten, tasks_of};
ghost use Rattle.mentions_tables.specs.Tables.{kept_at_first};

use crate::subject::Subject;
use crate::writer::{WrittenBy, WrittenMention};
use mentions_groups::mention::Mention;
use mentions_groups::state::MentionState;
use std::alloc::Global;

/// Which states a table changed.
#[derive(Clone, Copy)]
pub(crate) enum Changed {
    /// Those that have names.
    Names,
    /// Those that are chosen.
    Choice,
}

/// Writes the mentions again whose states are changed.
pub(crate) fn write_changed<W, C, M: WrittenBy<W, C>>(
    alloc: Global,
    changed: Changed,
    subjects: &[Subject<M>],
    states: &[MentionState],
    firsts: &[M::Kept],
    mentions: &mut [Mention],
    again: &mut [Option<M::Kept>],
    writer: &mut W,
    counter: &mut C,
) -> Result<(), M::Error>
    requires states { length subjects.now ≡ length states.now }
    requires firsts { length subjects.now ≡ length firsts.now }
    requires mentions { length subjects.now ≡ length mentions.old }
    requires again { length subjects.now ≡ length again.old }
    requires kept { (way : M.Way) → M.agrees writer.old way → firsts.now
        ≡ kept_at_first (keeping (M.writing writer.old counter.old way)) subjects.now }
    ensures again { OnOk result ((way : M.Way) → M.agrees writer.new way
        → mentions.new
        ≡ all_changed (rewritten (reading (M.writing writer.old counter.old way)) changed)
        (zip subjects.now states.now) mentions.old) }
    ensures kept { OnOk result ((way : M.Way) → M.agrees writer.new way
        → again.new
        ≡ all_changed (rekept (keeping (M.writing writer.old counter.old way)) changed)
        (zip subjects.now states.now) again.old) }
    ensures asked { OnOk result ((way : M.Way) → M.agrees writer.new way
        → M.writing writer.new counter.new way
        ≡ asked_for (flat_map (tasks_of changed) (zip subjects.now states.now))
        (M.writing writer.old counter.old way)) }
    ensures goes_on { OnOk result (M.goes_on writer.old writer.new) }
{
    for k in 0..subjects.len() {
        write_if_changed(
            alloc,
            changed,
            &subjects[k],
            &states[k],
            &firsts[k],
            &mut mentions[k],
            &mut again[k],
            writer,
            counter,
        )?;
    }
    Ok(())
}

/// Writes a mention again, if its state is changed.
fn write_if_changed<W, C, M: WrittenBy<W, C>>(
    alloc: Global,
    changed: Changed,
    subject: &Subject<M>,
    state: &MentionState,
    first: &M::Kept,
    mention: &mut Mention,
    again: &mut Option<M::Kept>,
    writer: &mut W,
    counter: &mut C,
) -> Result<(), M::Error>
    requires { (way : M.Way) → M.agrees writer.old way
        → first.now ≡ first_kept (M.writing writer.old counter.old way) subject.now.mention }
    ensures again { OnOk result ((way : M.Way) → M.agrees writer.new way
        → mention.new
        ≡ rewritten (reading (M.writing writer.old counter.old way)) changed
        (subject.now, state.now) mention.old) }
    ensures kept { OnOk result ((way : M.Way) → M.agrees writer.new way
        → again.new
        ≡ rekept (keeping (M.writing writer.old counter.old way)) changed (subject.now, state.now)
        again.old) }
    ensures asked { OnOk result ((way : M.Way) → M.agrees writer.new way
        → M.writing writer.new counter.new way
        ≡ asked_for (tasks_of changed (subject.now, state.now))
        (M.writing writer.old counter.old way)) }
    ensures goes_on { OnOk result (M.goes_on writer.old writer.new) }
{
    if !is_changed(changed, state) {
        return Ok(());
    }
    let written = subject
        .mention
        .write_again(alloc, state, first, writer, counter)?;
    let WrittenMention { read, kept } = written;
    mention.text = read.text;
    *again = Some(kept);
    Ok(())
}

/// Whether a state is changed by names, or by the choice.
fn is_changed(changed: Changed, state: &MentionState) -> bool
    ensures { result ≡ is_changed changed state.now }
{
    match changed {
        Changed::Names => state.names.is_some(),
        Changed::Choice => state.chosen,
    }
}

//! The tables of all mentions, one after another (CSL 1.0.2, disambiguation).
ghost use Rattle.std.specs.Prelude.{◌≡◌, ◌++◌, IfOk, OnOk, is_some, map};
ghost use Rattle.mentions_tables.specs.Asked.{asked_for, keeping, reading, untold};
ghost use Rattle.mentions_groups.specs.Groups.{text_of};
ghost use Rattle.mentions_groups.specs.Suffixes.{suffixes};
ghost use Rattle.mentions_tables.specs.Tables.{
  all_tasks,
  first_tasks,
  kept_again,
  kept_at_first,
  mentions_in,
  second_table,
  tasks_where,
  texts_told,
  third_table,
  year_suffixes,
};

use crate::changed::{Changed, write_changed};
use crate::chosen::choose;
use crate::firsts::{Firsts, write_firsts};
use crate::named::told_by_names;
use crate::subject::Subject;
use crate::writer::WrittenBy;
use mentions_groups::groups::texts_of;
use mentions_groups::mention::Mention;
use mentions_groups::state::MentionState;
use mentions_groups::suffixes::suffixes_of;
use std::alloc::{AllocError, Global};

/// What disambiguates mentions.
#[derive(Drop)]
pub struct Told<K> {
    /// The state of each mention.
    pub states: Vec<MentionState>,
    /// The year suffix of each entry that has a later mention, in their order.
    pub suffixes: Vec<Option<usize>>,
    /// What each mention reads as in the end, if it has a text: the index of the first mention
    /// with its text.
    pub texts: Vec<Option<usize>>,
    /// What the writer kept of each mention where nothing disambiguated it.
    pub firsts: Vec<K>,
    /// What it kept of those that something disambiguates, as it wrote them last.
    pub again: Vec<Option<K>>,
}

/// What disambiguates the mentions of all entries. They stand in the order of the bibliography, the
/// first one of an entry before the later one.
///
/// Each is written where nothing disambiguates it; those of several entries that read alike are
/// disambiguated by their names. Those that get other names are written again with these; the
/// condition `disambiguate` holds for those that tested it and still read as two entries do in
/// cites. They are written once more, and entries whose later mentions read alike then, and that
/// still read alike in cites, get year suffixes. Nothing else is written, and a mention that
/// doesn't occur asks for nothing.
///
/// # Errors
///
/// The writer's; lack of memory among others.
pub fn tell_apart<W, C, M: WrittenBy<W, C>>(
    alloc: Global,
    subjects: &[Subject<M>],
    writer: &mut W,
    counter: &mut C,
) -> Result<Told<M::Kept>, M::Error>
    ensures states { IfOk result (λ t. (way : M.Way) → M.agrees writer.new way → t.states.items
        ≡ third_table (reading (M.writing writer.old counter.old way)) subjects.now) }
    ensures suffixes { IfOk result (λ t. (way : M.Way) → M.agrees writer.new way → t.suffixes.items
        ≡ year_suffixes (reading (M.writing writer.old counter.old way)) subjects.now) }
    ensures texts { IfOk result (λ t. (way : M.Way) → M.agrees writer.new way → t.texts.items
        ≡ texts_told (reading (M.writing writer.old counter.old way)) subjects.now) }
    ensures firsts { IfOk result (λ t. (way : M.Way) → M.agrees writer.new way → t.firsts.items
        ≡ kept_at_first (keeping (M.writing writer.old counter.old way)) subjects.now) }
    ensures again { IfOk result (λ t. (way : M.Way) → M.agrees writer.new way → t.again.items
        ≡ kept_again (keeping (M.writing writer.old counter.old way)) subjects.now
        (third_table (reading (M.writing writer.old counter.old way)) subjects.now)) }
    ensures asked { OnOk result ((way : M.Way) → M.agrees writer.new way
        → M.writing writer.new counter.new way
        ≡ asked_for (all_tasks (reading (M.writing writer.old counter.old way)) subjects.now)
        (M.writing writer.old counter.old way)) }
    ensures goes_on { OnOk result (M.goes_on writer.old writer.new) }
{
    let mut named = tell_by_names(alloc, subjects, writer, counter)?;
    choose(alloc, &named.mentions, &named.tested, &mut named.states)?;
    write_changed(
        alloc,
        Changed::Choice,
        subjects,
        &named.states,
        &named.firsts,
        &mut named.mentions,
        &mut named.again,
        writer,
        counter,
    )?;
    Ok(with_suffixes(alloc, named)?)
}

/// Mentions once names disambiguate them.
#[derive(Drop)]
struct Named<K> {
    /// As they read then.
    mentions: Vec<Mention>,
    /// Whether each tested a condition `disambiguate` at first.
    tested: Vec<bool>,
    states: Vec<MentionState>,
    firsts: Vec<K>,
    again: Vec<Option<K>>,
}

/// Writes each mention, and those that get other names again.
fn tell_by_names<W, C, M: WrittenBy<W, C>>(
    alloc: Global,
    subjects: &[Subject<M>],
    writer: &mut W,
    counter: &mut C,
) -> Result<Named<M::Kept>, M::Error>
    ensures mentions { IfOk result (λ n. (way : M.Way) → M.agrees writer.new way → n.mentions.items
        ≡ mentions_in (reading (M.writing writer.old counter.old way)) subjects.now
        (second_table (reading (M.writing writer.old counter.old way)) subjects.now)) }
    ensures tested { IfOk result (λ n. (way : M.Way) → M.agrees writer.new way → n.tested.items
        ≡ map (λ s. (reading (M.writing writer.old counter.old way) s.mention untold).tested)
        subjects.now) }
    ensures states { IfOk result (λ n. (way : M.Way) → M.agrees writer.new way → n.states.items
        ≡ second_table (reading (M.writing writer.old counter.old way)) subjects.now) }
    ensures firsts { IfOk result (λ n. (way : M.Way) → M.agrees writer.new way → n.firsts.items
        ≡ kept_at_first (keeping (M.writing writer.old counter.old way)) subjects.now) }
    ensures again { IfOk result (λ n. (way : M.Way) → M.agrees writer.new way → n.again.items
        ≡ kept_again (keeping (M.writing writer.old counter.old way)) subjects.now
        (second_table (reading (M.writing writer.old counter.old way)) subjects.now)) }
    ensures asked { OnOk result ((way : M.Way) → M.agrees writer.new way
        → M.writing writer.new counter.new way
        ≡ asked_for (first_tasks subjects.now ++ tasks_where subjects.now (λ s. is_some s.names)
        (second_table (reading (M.writing writer.old counter.old way)) subjects.now))
        (M.writing writer.old counter.old way)) }
    ensures goes_on { OnOk result (M.goes_on writer.old writer.new) }
{
    let firsts = write_firsts(alloc, subjects, writer, counter)?;
    let Firsts {
        mut mentions,
        mut named,
        tested,
        kept,
        mut again,
    } = firsts;
    let states = told_by_names(alloc, &mentions, &mut named)?;
    write_changed(
        alloc,
        Changed::Names,
        subjects,
        &states,
        &kept,
        &mut mentions,
        &mut again,
        writer,
        counter,
    )?;
    Ok(Named {
        mentions,
        tested,
        states,
        firsts: kept,
        again,
    })
}

/// The states of mentions and their texts, and the year suffixes.
fn with_suffixes<K: Drop>(alloc: Global, named: Named<K>) -> Result<Told<K>, AllocError>
    ensures states { IfOk result (λ t. t.states.items ≡ named.states.items) }
    ensures suffixes { IfOk result (λ t. t.suffixes.items ≡ suffixes named.mentions.items) }
    ensures texts { IfOk result (λ t. t.texts.items
        ≡ map (text_of named.mentions.items) named.mentions.items) }
    ensures firsts { IfOk result (λ t. t.firsts ≡ named.firsts) }
    ensures again { IfOk result (λ t. t.again ≡ named.again) }
{
    let Named {
        mentions,
        tested: _tested,
        states,
        firsts,
        again,
    } = named;
    let texts = texts_of(alloc, &mentions)?;
    let suffixes = suffixes_of(alloc, &mentions)?;
    Ok(Told {
        states,
        suffixes,
        texts,
        firsts,
        again,
    })
}

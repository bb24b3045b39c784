//! Mentions where nothing disambiguates them yet.
ghost use Rattle.std.specs.Prelude.{◌≡◌, ◌∷◌, [], ◌++◌, IfOk, None, OnOk};
ghost use Rattle.mentions_tables.specs.Asked.{asked_for};
ghost use Rattle.mentions_tables.specs.Steps.{AreFirsts};
ghost use Rattle.mentions_tables.specs.Tables.{first_tasks, mention_with, named_with};

use crate::subject::Subject;
use crate::writer::{WrittenBy, WrittenMention};
use mentions_groups::mention::Mention;
use mentions_groups::written::Written;
use mentions_names::mention::NamedMention;
use std::alloc::{AllocError, Global};

/// What was read and kept of mentions.
#[derive(Drop)]
pub(crate) struct Firsts<K> {
    /// As they are compared.
    pub(crate) mentions: Vec<Mention>,
    /// With their names, in no groups.
    pub(crate) named: Vec<NamedMention>,
    /// Whether each tested a condition `disambiguate`.
    pub(crate) tested: Vec<bool>,
    /// What their writer kept.
    pub(crate) kept: Vec<K>,
    /// What it keeps of those that are written again; of none yet.
    pub(crate) again: Vec<Option<K>>,
}

/// Writes each mention once.
pub(crate) fn write_firsts<W, C, M: WrittenBy<W, C>>(
    alloc: Global,
    subjects: &[Subject<M>],
    writer: &mut W,
    counter: &mut C,
) -> Result<Firsts<M::Kept>, M::Error>
    ensures firsts { IfOk result (λ f. (way : M.Way) → M.agrees writer.new way
        → AreFirsts (M.writing writer.old counter.old way) subjects.now f) }
    ensures asked { OnOk result ((way : M.Way) → M.agrees writer.new way
        → M.writing writer.new counter.new way
        ≡ asked_for (first_tasks subjects.now) (M.writing writer.old counter.old way)) }
    ensures goes_on { OnOk result (M.goes_on writer.old writer.new) }
{
    let mut firsts = Firsts {
        mentions: Vec::new(alloc),
        named: Vec::new(alloc),
        tested: Vec::new(alloc),
        kept: Vec::new(alloc),
        again: Vec::new(alloc),
    };
    for subject in subjects {
        let written = subject.mention.write_first(alloc, writer, counter)?;
        add_first(&mut firsts, subject, written)?;
    }
    Ok(firsts)
}

/// Adds what was read and kept of one more mention.
fn add_first<M, K: Drop>(
    firsts: &mut Firsts<K>,
    subject: &Subject<M>,
    written: WrittenMention<K>,
) -> Result<(), AllocError>
    ensures mentions { OnOk result (firsts.new.mentions.items
        ≡ firsts.old.mentions.items ++ mention_with subject.now written.read.text ∷ []) }
    ensures named { OnOk result (firsts.new.named.items
        ≡ firsts.old.named.items ++ named_with None subject.now written.read.names ∷ []) }
    ensures tested { OnOk result (firsts.new.tested.items
        ≡ firsts.old.tested.items ++ written.read.tested ∷ []) }
    ensures kept { OnOk result (firsts.new.kept.items
        ≡ firsts.old.kept.items ++ written.kept ∷ []) }
    ensures again { OnOk result (firsts.new.again.items ≡ firsts.old.again.items ++ None ∷ []) }
{
    let WrittenMention { read, kept } = written;
    let Written {
        text,
        names,
        tested,
    } = read;
    firsts.mentions.push(Mention {
        entry: subject.entry,
        is_first: subject.is_first,
        occurs: subject.occurs,
        text,
        adds_suffix: subject.adds_suffix,
    })?;
    firsts.named.push(NamedMention {
        names,
        adds_names: subject.adds_names,
        rule: subject.rule,
        group: None,
        occurs: subject.occurs,
    })?;
    firsts.tested.push(tested)?;
    firsts.kept.push(kept)?;
    firsts.again.push(None)?;
    Ok(())
}

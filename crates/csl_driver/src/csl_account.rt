//! What an answer cost where works are disambiguated as CSL 1.0.2 has it, and by what they are.
ghost use Rattle.std.specs.Prelude.{◌≡◌, true, false, if◌then◌else◌, IfOk, is_some, map};
ghost use Rattle.std.specs.List.{list_any};
ghost use Rattle.csl_driver.specs.CslAccount.{entries_told, every_second};
ghost use Rattle.csl_driver.specs.DraftView.{job_in};
ghost use Rattle.mentions_table_laws.specs.TellingLaws.{has_names, rounds_of};

use crate::draft::Draft;
use csl_base::entry::EntryLike;
use driver_writers::counter::Renders;
use mentions_cited::kept::KeptOfMention;
use mentions_groups::state::MentionState;
use mentions_tables::tables::Told;
use std::alloc::{AllocError, Global};

/// The account of an answer where works are disambiguated as CSL 1.0.2 has it. All lists are
/// equally long, and have what belongs to one entry at the same index.
#[derive(Drop)]
pub struct CslAccount<'a, T> {
    /// The renderings that were made; the greatest `u128` where there were more.
    pub renders: u128,
    /// How many of names, the condition `disambiguate` and year suffixes disambiguated something: 0
    /// to 3.
    pub rounds: u128,
    /// The distinct entries, each as it is cited first, in the order of the bibliography.
    pub entries: Vec<&'a T>,
    /// What disambiguates their first mentions.
    pub first_mentions: Vec<MentionState>,
    /// What disambiguates their later mentions.
    pub later_mentions: Vec<MentionState>,
    /// The suffixes of their years, from 0 for `a`; none where they have none.
    pub suffixes: Vec<Option<usize>>,
    /// Their final numbers.
    pub numbers: Vec<usize>,
}

impl<'d, 'o, 'a, T: EntryLike, P> Draft<'d, 'o, 'a, T, P> {
    /// The account of an answer, by what disambiguated its mentions, after so many renderings. The
    /// numbers are those of the entries, in the order of the bibliography.
    pub(crate) fn csl_account(
        self,
        alloc: Global,
        told: Told<KeptOfMention>,
        numbers: Vec<usize>,
        counter: &Renders,
    ) -> Result<CslAccount<'a, T>, AllocError>
        ensures renders { IfOk result (λ a. a.renders ≡ counter.now) }
        ensures rounds { IfOk result
            (λ a. a.rounds ≡ rounds_of told.states.items told.suffixes.items) }
        ensures entries { IfOk result
            (λ a. map (λ e. e.now) a.entries.items ≡ entries_told T.eq (job_in self.entry)) }
        ensures first { IfOk result
            (λ a. a.first_mentions.items ≡ every_second true told.states.items) }
        ensures later { IfOk result
            (λ a. a.later_mentions.items ≡ every_second false told.states.items) }
        ensures suffixes { IfOk result (λ a. a.suffixes ≡ told.suffixes) }
        ensures numbers { IfOk result (λ a. a.numbers ≡ numbers) }
    {
        let Told {
            states,
            suffixes,
            texts: _texts,
            firsts: _firsts,
            again: _again,
        } = told;
        let rounds = rounds_of(&states, &suffixes);
        let (first_mentions, later_mentions) = parted(alloc, states)?;
        Ok(CslAccount {
            renders: counter.count(),
            rounds,
            entries: self.listed_entries(alloc)?,
            first_mentions,
            later_mentions,
            suffixes,
            numbers,
        })
    }

    /// The entries in the order of the bibliography, each as it is cited first.
    fn listed_entries(self, alloc: Global) -> Result<Vec<&'a T>, AllocError>
        ensures { IfOk result
            (λ v. map (λ e. e.now) v.items ≡ entries_told T.eq (job_in self.entry)) }
    {
        let order = self.cited.listing.order();
        let mut entries = Vec::with_capacity(alloc, order.len())?;
        for place in order {
            entries.push(self.cited.table.entry(*place))?;
        }
        Ok(entries)
    }
}

/// How many of names, choices and suffixes disambiguated something.
fn rounds_of(states: &[MentionState], suffixes: &[Option<usize>]) -> u128
    ensures { result ≡ rounds_of states.now suffixes.now }
{
    one_if(any_has_names(states)) + one_if(any_is_chosen(states)) + one_if(any_is_some(suffixes))
}

fn one_if(holds: bool) -> u128
    ensures { result ≡ (if holds then 1 else 0) }
{
    if holds { 1 } else { 0 }
}

fn any_has_names(states: &[MentionState]) -> bool
    ensures { result ≡ list_any has_names states.now }
{
    for state in states {
        if state.names.is_some() {
            return true;
        }
    }
    false
}

fn any_is_chosen(states: &[MentionState]) -> bool
    ensures { result ≡ list_any (λ s. s.chosen) states.now }
{
    for state in states {
        if state.chosen {
            return true;
        }
    }
    false
}

fn any_is_some(suffixes: &[Option<usize>]) -> bool
    ensures { result ≡ list_any is_some suffixes.now }
{
    for suffix in suffixes {
        if suffix.is_some() {
            return true;
        }
    }
    false
}

/// The states of first mentions, and those of later ones. Each later one follows its first.
fn parted(
    alloc: Global,
    states: Vec<MentionState>,
) -> Result<(Vec<MentionState>, Vec<MentionState>), AllocError>
    ensures { IfOk result (λ r. (r.0.items ≡ every_second true states.items)
        × (r.1.items ≡ every_second false states.items)) }
{
    let mut first = Vec::with_capacity(alloc, states.len())?;
    let mut later = Vec::with_capacity(alloc, states.len())?;
    let mut is_first = true;
    for state in states {
        if is_first {
            first.push(state)?;
        } else {
            later.push(state)?;
        }
        is_first = !is_first;
    }
    Ok((first, later))
}

//! Cites that repeat the one before them: what they show is seen by their mentions, written as
//! these repeat it (CSL 1.0.2, position and cite grouping).
ghost use Rattle.std.specs.Prelude.{◌≡◌, ◌+◌, ◌<◌, ◌^◌, ◌∷◌, [], IfOk, OnOk, flat_map, length, map, option_map, unwrap_or};
ghost use Rattle.mentions_arranging.specs.Requests.{request_view, requests_view};
ghost use Rattle.mentions_cited.specs.Cited.{first_task};
ghost use Rattle.mentions_cited.specs.Kept.{written_mention};
ghost use Rattle.mentions_groups.specs.declared.shown.ShownNames.{ShownNames as NamesValue};
ghost use Rattle.mentions_tables.specs.Asked.{untold};
ghost use Rattle.mentions_tables.specs.Steps.{all_changed};
ghost use Rattle.mentions_tables.specs.Tables.{with_mention};
ghost use Rattle.mentions_cites.specs.Mentions.{first_with_names, kept_last};
ghost use Rattle.mentions_cites.specs.NotedNames.{first_noted};
ghost use Rattle.mentions_cites.specs.Repeats.{
  cites_with_shown,
  reads_alike,
  repeat_tasks,
  shown_by,
  shown_repeat,
  shown_repeats,
  task_told,
  with_first_key,
  with_key,
  with_shown,
};
ghost use Rattle.driver_writers.specs.Desk.{after, desk};
ghost use Rattle.driver_writers.specs.Tasks.{cite_task};

use crate::arranging::ibid_of;
use crate::mentions::{ToldMention, by_mention, last_of, mention_of};
use csl_base::entry::EntryLike;
use driver_writers::counter::Renders;
use driver_writers::pushed::push;
use driver_writers::writer::CiteWriter;
use mentions_arranging::repeating::Repeated;
use mentions_arranging::request::{CiteRequest, FinalCite, RequestedCite, Shown};
use mentions_cited::kept::KeptOfMention;
use mentions_cited::mention::CiteMention;
use mentions_cited::repeated::write_repeated;
use mentions_groups::shown::ShownNames;
use mentions_groups::state::MentionState;
use mentions_tables::subject::Subject;
use mentions_tables::tables::Told;
use std::alloc::{AllocError, Global};
use std::collections::BTreeMap;

/// What is known of all mentions once they are disambiguated.
#[derive(Clone, Copy)]
pub struct MentionsTold<'k, 'm, 'n> {
    /// What disambiguates them, and what was kept of them.
    pub told: &'k Told<KeptOfMention>,
    /// What they show.
    pub mentions: &'m [ToldMention],
    /// The names that they show, each with the index of the first mention that shows them.
    pub noted: &'n BTreeMap<ShownNames, usize>,
}

/// What the cites at some places show that repeat these mentions. Each of the mentions is written
/// for it; nothing is said of a cite that repeats none.
///
/// # Errors
///
/// The writer's own.
pub fn shown_repeats<'t, 'p, T: EntryLike, P: Drop, W: CiteWriter<T, P>>(
    alloc: Global,
    known: MentionsTold<'_, '_, '_>,
    subjects: &[Subject<CiteMention<'t, 'p, T, P>>],
    repeats: &[Option<Repeated>],
    writer: &mut W,
    counter: &mut Renders,
) -> Result<Vec<Option<Shown>>, W::Error>
    requires { let told = known.told.now in
        (n : NamesValue) → first_noted known.noted.now n
        ≡ first_with_names (kept_last told.firsts.items told.again.items) n }
    ensures shown { let told = known.entry.told.now in
        IfOk result (λ v. (way : W.Way) → W.agrees writer.new way
        → v.items ≡ shown_repeats known.entry.mentions.now
        (map (with_mention first_task) subjects.now) told.states.items
        (kept_last told.firsts.items told.again.items)
        (W.state writer.old way).cite repeats.now) }
    ensures asked { let told = known.entry.told.now in
        OnOk result ((way : W.Way) → W.agrees writer.new way
        → desk (W.state writer.new way) counter.new
        ≡ after (map cite_task (repeat_tasks known.entry.mentions.now
        (map (with_mention first_task) subjects.now) told.states.items repeats.now))
        (desk (W.state writer.old way) counter.old)) }
    ensures agreed { OnOk result ((way : W.Way) → W.agrees writer.new way
        → W.agrees writer.old way) }
{
    let mut found = Vec::with_capacity(alloc, repeats.len())?;
    for place in 0..repeats.len() {
        let repeated = repeats[place];
        let shown = shown_repeat(alloc, known, subjects, place, repeated, writer, counter)?;
        push(&mut found, shown)?;
    }
    Ok(found)
}

/// What the cite at a place shows, if it repeats this mention and the mention is there.
fn shown_repeat<'t, 'p, T: EntryLike, P: Drop, W: CiteWriter<T, P>>(
    alloc: Global,
    known: MentionsTold<'_, '_, '_>,
    subjects: &[Subject<CiteMention<'t, 'p, T, P>>],
    place: usize,
    repeated: Option<Repeated>,
    writer: &mut W,
    counter: &mut Renders,
) -> Result<Option<Shown>, W::Error>
    requires noted { let told = known.told.now in
        (n : NamesValue) → first_noted known.noted.now n
        ≡ first_with_names (kept_last told.firsts.items told.again.items) n }
    requires fits { length known.told.now.firsts.items + place < 2 ^ 64 }
    ensures shown { let told = known.entry.told.now in
        IfOk result (λ s. (way : W.Way) → W.agrees writer.new way
        → s ≡ shown_repeat known.entry.mentions.now (map (with_mention first_task) subjects.now)
        told.states.items (kept_last told.firsts.items told.again.items)
        (W.state writer.old way).cite (place, repeated)) }
    ensures asked { let told = known.entry.told.now in
        OnOk result ((way : W.Way) → W.agrees writer.new way
        → desk (W.state writer.new way) counter.new
        ≡ after (map cite_task (repeat_tasks known.entry.mentions.now
        (map (with_mention first_task) subjects.now) told.states.items (repeated ∷ [])))
        (desk (W.state writer.old way) counter.old)) }
    ensures agreed { OnOk result ((way : W.Way) → W.agrees writer.new way
        → W.agrees writer.old way) }
{
    let Some(repeated) = repeated else {
        return Ok(None);
    };
    let Some(subject) = by_mention(subjects, repeated.entry, repeated.is_first) else {
        return Ok(None);
    };
    let kept = write_as_told(alloc, known, &subject.mention, repeated, writer, counter)?;
    Ok(Some(shown_by(known, place, repeated, &kept)))
}

/// What is kept of a mention that is written as a cite repeats it.
fn write_as_told<T: EntryLike, P: Drop, W: CiteWriter<T, P>>(
    alloc: Global,
    known: MentionsTold<'_, '_, '_>,
    mention: &CiteMention<'_, '_, T, P>,
    repeated: Repeated,
    writer: &mut W,
    counter: &mut Renders,
) -> Result<KeptOfMention, W::Error>
    ensures kept { let states = known.entry.told.now.states.items in
        IfOk result (λ k. (way : W.Way) → W.agrees writer.new way
        → k ≡ (written_mention ((W.state writer.old way).cite
        (task_told known.entry.mentions.now states repeated (first_task mention.now)))).kept) }
    ensures asked { let states = known.entry.told.now.states.items in
        OnOk result ((way : W.Way) → W.agrees writer.new way
        → desk (W.state writer.new way) counter.new
        ≡ after (cite_task
        (task_told known.entry.mentions.now states repeated (first_task mention.now)) ∷ [])
        (desk (W.state writer.old way) counter.old)) }
    ensures agreed { OnOk result ((way : W.Way) → W.agrees writer.new way
        → W.agrees writer.old way) }
{
    let Repeated {
        entry,
        is_first,
        position,
    } = repeated;
    let usage = mention_of(known.mentions, entry, is_first).usage;
    let ibid = ibid_of(position);
    match by_mention(&known.told.states, entry, is_first) {
        Some(state) => write_repeated(alloc, mention, state, usage, ibid, writer, counter),
        None => {
            let state = untold();
            write_repeated(alloc, mention, &state, usage, ibid, writer, counter)
        }
    }
}

/// The state of a mention that nothing disambiguates.
fn untold() -> MentionState
    ensures { result ≡ untold }
{
    MentionState {
        names: None,
        chosen: false,
    }
}

/// What the cite at a place shows that repeats a mention, by what was kept of the mention.
fn shown_by(
    known: MentionsTold<'_, '_, '_>,
    place: usize,
    repeated: Repeated,
    kept: &KeptOfMention,
) -> Shown
    requires noted { let told = known.told.now in
        (n : NamesValue) → first_noted known.noted.now n
        ≡ first_with_names (kept_last told.firsts.items told.again.items) n }
    requires fits { length known.told.now.firsts.items + place < 2 ^ 64 }
    ensures { let told = known.entry.told.now in
        let lasts = kept_last told.firsts.items told.again.items in
        result ≡ shown_by known.entry.mentions.now lasts (length lasts + place) repeated kept.now }
{
    let own = known.told.firsts.len().min(known.told.again.len()) + place;
    let text = if reads_alike(known.told, repeated, kept) {
        mention_of(known.mentions, repeated.entry, repeated.is_first)
            .shown
            .text
    } else {
        None
    };
    Shown {
        names: names_by(known.noted, own, &kept.names),
        text,
        has_number: kept.shows_number,
        has_date: kept.shows_date,
    }
}

/// The number of names: the index of the first mention that shows them, or else this one.
fn names_by(
    noted: &BTreeMap<ShownNames, usize>,
    own: usize,
    names: &Option<ShownNames>,
) -> Option<usize>
    ensures { result ≡ option_map (λ n. unwrap_or (first_noted noted.now n) own) names.now }
{
    match names {
        Some(names) => Some(noted.get(names).copied().unwrap_or(own)),
        None => None,
    }
}

/// Whether a mention reads, by what was kept of it, as it did where it repeated nothing.
fn reads_alike(told: &Told<KeptOfMention>, repeated: Repeated, kept: &KeptOfMention) -> bool
    ensures { result
        ≡ reads_alike (kept_last told.now.firsts.items told.now.again.items) repeated kept.now }
{
    let Some(first) = by_mention(&told.firsts, repeated.entry, repeated.is_first) else {
        return false;
    };
    let Some(again) = by_mention(&told.again, repeated.entry, repeated.is_first) else {
        return false;
    };
    kept.text == last_of(first, again).text
}

/// What the cites of all requests show that repeat these mentions, by request and by place in it.
///
/// # Errors
///
/// The writer's own.
pub fn all_shown_repeats<'t, 'p, T: EntryLike, P: Drop, W: CiteWriter<T, P>>(
    alloc: Global,
    known: MentionsTold<'_, '_, '_>,
    subjects: &[Subject<CiteMention<'t, 'p, T, P>>],
    repeats: &[Vec<Option<Repeated>>],
    writer: &mut W,
    counter: &mut Renders,
) -> Result<Vec<Vec<Option<Shown>>>, W::Error>
    requires { let told = known.told.now in
        (n : NamesValue) → first_noted known.noted.now n
        ≡ first_with_names (kept_last told.firsts.items told.again.items) n }
    ensures shown { let told = known.entry.told.now in
        IfOk result (λ v. (way : W.Way) → W.agrees writer.new way → map (λ s. s.items) v.items
        ≡ map (shown_repeats known.entry.mentions.now (map (with_mention first_task) subjects.now)
        told.states.items (kept_last told.firsts.items told.again.items)
        (W.state writer.old way).cite) (map (λ r. r.items) repeats.now)) }
    ensures asked { let told = known.entry.told.now in
        OnOk result ((way : W.Way) → W.agrees writer.new way
        → desk (W.state writer.new way) counter.new
        ≡ after (map cite_task (flat_map (repeat_tasks known.entry.mentions.now
        (map (with_mention first_task) subjects.now) told.states.items)
        (map (λ r. r.items) repeats.now)))
        (desk (W.state writer.old way) counter.old)) }
    ensures agreed { OnOk result ((way : W.Way) → W.agrees writer.new way
        → W.agrees writer.old way) }
{
    let mut found = Vec::with_capacity(alloc, repeats.len())?;
    for request in repeats {
        let shown = shown_repeats(alloc, known, subjects, request, writer, counter)?;
        push(&mut found, shown)?;
    }
    Ok(found)
}

/// Brings the first of some cites together with others by these names.
fn set_key<L>(cites: &mut [RequestedCite<L>], names: Option<usize>)
    ensures { cites.new ≡ with_key names cites.old }
{
    if !cites.is_empty() {
        cites[0].key = names;
    }
}

/// Brings the first cite of a request together with others by what it shows, where that is said.
fn set_first_key<L>(request: &mut CiteRequest<RequestedCite<L>>, shown: Option<Shown>)
    ensures { request_view request.new ≡ with_first_key shown (request_view request.old) }
{
    if let Some(shown) = shown {
        set_key(&mut request.cites, shown.names);
    }
}

/// Brings the first cite of each request together with others by what it shows, where that is
/// said. It takes no memory.
pub fn set_first_keys<L>(requests: &mut [CiteRequest<RequestedCite<L>>], shown: &[Option<Shown>])
    ensures { requests_view requests.new
        ≡ all_changed with_first_key shown.now (requests_view requests.old) }
{
    let count = requests.len().min(shown.len());
    for k in 0..count {
        set_first_key(&mut requests[k], shown[k]);
    }
}

/// Says what a cite shows, where that is said.
fn set_shown_of<L>(cite: &mut FinalCite<L>, shown: Option<Shown>)
    ensures { cite.new ≡ with_shown shown cite.old }
{
    if let Some(shown) = shown {
        cite.cite.shown = shown;
    }
}

/// Says what the cites of a request show, where that is said.
fn set_shown_in<L>(cites: &mut [FinalCite<L>], shown: &[Option<Shown>])
    ensures { cites.new ≡ all_changed with_shown shown.now cites.old }
{
    let count = cites.len().min(shown.len());
    for k in 0..count {
        set_shown_of(&mut cites[k], shown[k]);
    }
}

/// Says what cites of a request show, by place in its final order, where that is said.
fn set_shown_of_request<L>(request: &mut CiteRequest<FinalCite<L>>, shown: &[Option<Shown>])
    ensures { request_view request.new ≡ cites_with_shown shown.now (request_view request.old) }
{
    set_shown_in(&mut request.cites, shown);
}

/// Says what cites show, by request and by place in its final order, where that is said. It takes
/// no memory.
pub fn set_shown<L>(requests: &mut [CiteRequest<FinalCite<L>>], shown: &[Vec<Option<Shown>>])
    ensures { requests_view requests.new
        ≡ all_changed cites_with_shown (map (λ s. s.items) shown.now)
        (requests_view requests.old) }
{
    let count = requests.len().min(shown.len());
    for k in 0..count {
        set_shown_of_request(&mut requests[k], &shown[k]);
    }
}

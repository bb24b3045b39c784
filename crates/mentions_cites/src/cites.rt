//! The cites of requests in their final order, before they are arranged.
ghost use Rattle.std.specs.Prelude.{◌≡◌, ◌∷◌, ◌++◌, [], IfOk, OnOk, filter_map, map};
ghost use Rattle.mentions_arranging.specs.Requests.{requests_view as all_arranged_view};
ghost use Rattle.driver_lookup.specs.PropertiesView.{properties_view};
ghost use Rattle.driver_passes.specs.RendersView.{item_view, items_view, render_view, renders_view};
ghost use Rattle.driver_passes.specs.RequestView.{cite_view, request_view, requests_view};
ghost use Rattle.mentions_cites.specs.Cites.{
  told_at,
  told_certain,
  told_cite,
  told_cites,
  told_means,
  told_properties,
  told_request,
};
ghost use Rattle.mentions_cites.specs.ToldView.{told_view};

use crate::arranging::number_of;
use crate::mentions::{ToldMention, by_mention, mention_of, suffix_number};
use csl_base::elem::ElemChildren;
use driver_lookup::means::Means;
use driver_lookup::properties::{CertainCiteProperties, CiteProperties, SpeculativeCiteProperties};
use driver_lookup::state::{DisambiguateState, IbidState};
use driver_passes::item::CitationItem;
use driver_passes::renders::{Cites, SpeculativeCiteRender, SpeculativeItemRender};
use driver_passes::request::CitationRequest;
use driver_writers::pushed::push;
use mentions_arranging::request::{CiteRequest, FinalCite};
use mentions_cited::means::means_of;
use mentions_groups::state::MentionState;
use mentions_notes::notes::CiteNotes;
use std::alloc::{AllocError, Global};

/// What is known of the mentions of all entries once they are disambiguated, and of the entries.
#[derive(Clone, Copy)]
pub struct ToldEntries<'t> {
    /// By mention, what disambiguates it.
    pub states: &'t [MentionState],
    /// By mention, what it shows.
    pub mentions: &'t [ToldMention],
    /// By entry, the number of its suffix, if it has one.
    pub suffixes: &'t [Option<usize>],
    /// By entry, its number.
    pub numbers: &'t [usize],
}

/// What is certain of a cite at a place of its request, which stands in this note.
fn told_certain(note: Option<usize>, place: usize, notes: CiteNotes) -> CertainCiteProperties
    ensures { result ≡ told_certain note place notes }
{
    CertainCiteProperties {
        note_number: note,
        first_note_number: notes.first_note,
        is_near_note: notes.is_near,
        is_first: notes.is_first,
        initial_idx: place,
    }
}

/// The means of a mention of the entry at an index.
fn told_means(told: &ToldEntries<'_>, entry: usize, is_first: bool) -> Result<Means, AllocError>
    ensures { IfOk result (λ m. m ≡ told_means (told_view told.now) entry is_first) }
{
    let suffix = suffix_number(told.suffixes, entry);
    match by_mention(told.states, entry, is_first) {
        Some(state) => means_of(state, suffix),
        None => Ok(Means {
            names: None,
            choose: false,
            suffix,
        }),
    }
}

/// What is known of a cite of the entry at an index, before it is arranged.
fn told_properties<'a, P>(
    told: &ToldEntries<'_>,
    note: Option<usize>,
    entry: usize,
    place: usize,
    notes: CiteNotes,
) -> Result<CiteProperties<'a, P>, AllocError>
    ensures { IfOk result (λ p. properties_view p
        ≡ told_properties (told_view told.now) note entry place notes) }
{
    let means = told_means(told, entry, notes.is_first)?;
    Ok(CiteProperties {
        certain: told_certain(note, place, notes),
        speculative: SpeculativeCiteProperties {
            locator: None,
            citation_number: number_of(told.numbers, entry),
            ibid: IbidState::Different,
            disambiguation: DisambiguateState::None,
            means,
            identifier_usage: mention_of(told.mentions, entry, notes.is_first).usage,
        },
    })
}

/// A cite of the entry at an index. Nothing of the cite is written yet.
fn told_cite<'a, T, P: Drop>(
    alloc: Global,
    told: &ToldEntries<'_>,
    note: Option<usize>,
    entry: usize,
    place: usize,
    item: &CitationItem<'a, T, P>,
    notes: CiteNotes,
) -> Result<SpeculativeItemRender<'a, T, P>, AllocError>
    ensures { IfOk result (λ i. item_view i
        ≡ told_cite (told_view told.now) note entry place (cite_view item.now) notes) }
{
    let cite_props = told_properties(told, note, entry, place, notes)?;
    Ok(SpeculativeItemRender {
        rendered: ElemChildren::new(alloc),
        entry: item.entry,
        cite_props,
        checked_disambiguate: false,
        first_name: None,
        delim_override: None,
        group_idx: None,
        locator: item.locator.clone()?,
        hidden: item.hidden,
        locale: item.locale.clone()?,
        purpose: item.purpose,
        apart: item.apart,
        collapse_verdict: None,
    })
}

/// Adds the cite of a request that stands at a place of its final order.
fn push_told<'a, T, P: Drop, L>(
    alloc: Global,
    found: &mut Vec<SpeculativeItemRender<'a, T, P>>,
    told: &ToldEntries<'_>,
    request: &CitationRequest<'a, T, P>,
    notes: &[CiteNotes],
    cite: &FinalCite<L>,
) -> Result<(), AllocError>
    ensures { OnOk result (items_view found.new.items ≡ items_view found.old.items
        ++ filter_map (told_at (told_view told.now) (request_view request.now) notes.now)
        (cite.now ∷ [])) }
{
    let items = request.items.as_slice();
    let note = request.note_number();
    let entry = cite.cite.entry;
    let place = cite.placed.place;
    let count = items.len().min(notes.len());
    if count <= place {
        return Ok(());
    }
    let cite = told_cite(alloc, told, note, entry, place, &items[place], notes[place])?;
    push(found, cite)?;
    Ok(())
}

/// The cites of a request in this order, with what is known of each by those before it.
fn told_request<'r, 'a, T, P: Drop, L>(
    alloc: Global,
    told: &ToldEntries<'_>,
    request: &'r CitationRequest<'a, T, P>,
    notes: &[CiteNotes],
    cites: &[FinalCite<L>],
) -> Result<SpeculativeCiteRender<'r, 'a, T, P>, AllocError>
    ensures { IfOk result (λ c. render_view c
        ≡ told_request (told_view told.now) (request_view request.now) notes.now cites.now) }
{
    let mut render = SpeculativeCiteRender {
        items: Vec::with_capacity(alloc, cites.len())?,
        request,
    };
    for cite in cites {
        push_told(alloc, &mut render.items, told, request, notes, cite)?;
    }
    Ok(render)
}

/// The cites of all requests in their final order, before they are arranged: each with what is
/// certain of it, the means of the mention that it reads as, the usage that this noted, and the
/// number of its entry. Nothing is written of them yet. The notes are those of the requests'
/// cites; a place that a request doesn't have is left out.
///
/// # Errors
///
/// Where memory is refused.
pub fn told_cites<'r, 'a, T, P: Drop, L>(
    alloc: Global,
    told: &ToldEntries<'_>,
    requests: &'r [CitationRequest<'a, T, P>],
    notes: &[Vec<CiteNotes>],
    finals: &[CiteRequest<FinalCite<L>>],
) -> Result<Cites<'r, 'a, T, P>, AllocError>
    ensures { IfOk result (λ c. renders_view c.by_request.items
        ≡ told_cites (told_view told.now) (requests_view requests.now)
        (map (λ n. n.items) notes.now) (all_arranged_view finals.now)) }
{
    let count = requests.len().min(notes.len()).min(finals.len());
    let mut cites = Cites::with_capacity(alloc, count)?;
    for k in 0..count {
        let cite = told_request(alloc, told, &requests[k], &notes[k], &finals[k].cites)?;
        cites.push(cite)?;
    }
    Ok(cites)
}

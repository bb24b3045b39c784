//! The cites of all requests as they are arranged once mentions are disambiguated.
ghost use Rattle.std.specs.Prelude.{◌≡◌, IfOk, OnOk, length, map};
ghost use Rattle.mentions_arranging.specs.Arranged.{arranged_cites};
ghost use Rattle.mentions_arranging.specs.Requests.{requests_view as all_arranged_view};
ghost use Rattle.csl_driver.specs.AreCitesOf.{AreCitesOf};
ghost use Rattle.csl_driver.specs.CslAnswer.{
  cite_notes,
  cites_in_order,
  mentions,
  numbers_by,
  ordered,
  plain_by,
  same_locator,
};
ghost use Rattle.csl_driver.specs.CslParts.{AreToldApart, IsKnownOf, all_located};
ghost use Rattle.csl_driver.specs.CslTasks.{repeat_cite_tasks};
ghost use Rattle.csl_driver.specs.DraftView.{job_in, table_in};
ghost use Rattle.driver_passes.specs.RendersView.{renders_view};
ghost use Rattle.mentions_cited.specs.Handed.{cite_counts};
ghost use Rattle.mentions_cited.specs.Plain.{plain};
ghost use Rattle.mentions_cites.specs.Arranging.{arranged_finally};
ghost use Rattle.mentions_tables.specs.Steps.{all_changed};
ghost use Rattle.mentions_cites.specs.Repeats.{cites_with_shown, with_first_key};
ghost use Rattle.mentions_cites.specs.Requests.{located_request};
ghost use Rattle.driver_writers.specs.Desk.{after, desk};
ghost use Rattle.driver_writers.specs.Writing.{writing_of};

use crate::draft::Draft;
use csl_base::entry::EntryLike;
use driver_lookup::locator::SpecificLocator;
use driver_passes::renders::{Cites, SpeculativeCiteRender};
use driver_writers::counter::Renders;
use driver_writers::writer::CiteWriter;
use mentions_arranging::arranged::arranged_cites;
use mentions_arranging::order::final_requests;
use mentions_arranging::repeating::{cites_repeated, firsts_repeated};
use mentions_arranging::request::{CiteRequest, FinalCite, RequestedCite, Shown};
use mentions_cited::kept::KeptOfMention;
use mentions_cited::mention::CiteMention;
use mentions_cites::arranging::arrange_finally;
use mentions_cites::cites::{ToldEntries, told_cites};
use mentions_cites::mentions::{ToldMention, noted_names, told_mentions};
use mentions_cites::repeats::{
    MentionsTold, all_shown_repeats, set_first_keys, set_shown, shown_repeats,
};
use mentions_cites::requests::{LocatedCite, plain_requests};
use mentions_notes::notes::CiteNotes;
use mentions_tables::subject::Subject;
use mentions_tables::tables::Told;
use std::alloc::{AllocError, Global};

/// A request with its cites in the final order, whose locators are lent by its caller's request.
pub(crate) type OrderedRequest<'d, 'a, P> = CiteRequest<FinalCite<&'d SpecificLocator<'a, P>>>;

impl<'d, 'o, 'a, T: EntryLike, P: Eq + Drop> Draft<'d, 'o, 'a, T, P> {
    /// The requests, their cites in the final order, with what cites show that repeat others, as
    /// this writer writes their mentions; and these cites, before anything of them is written. The
    /// notes are those of the requests' cites.
    pub(crate) fn cites_in_order<'t, 'p, W: CiteWriter<T, P>>(
        self,
        alloc: Global,
        notes: &[Vec<CiteNotes>],
        told: &Told<KeptOfMention>,
        subjects: &[Subject<CiteMention<'t, 'p, T, P>>],
        writer: &mut W,
        counter: &mut Renders,
    ) -> Result<(Vec<OrderedRequest<'d, 'a, P>>, Cites<'d, 'a, T, P>), W::Error>
        requires notes { map (λ n. n.items) notes.now ≡ cite_notes T.eq (job_in self) }
        requires counts { map (λ n. length n.items) notes.now
            ≡ cite_counts (job_in self).requests }
        requires subjects { map plain subjects.now ≡ mentions T.eq (job_in self) }
        ensures ordered { let job = job_in self.entry in
            IfOk result (λ r. (way : W.Way) → W.agrees writer.new way
            → AreToldApart T.eq job (writing_of T.answers (W.state writer.old way)) told.now
            → all_located (all_arranged_view r.0.items)
            ≡ ordered T.eq job (writing_of T.answers (W.state writer.old way)) P.eq) }
        ensures cites { let job = job_in self.entry in
            IfOk result (λ r. (way : W.Way) → W.agrees writer.new way
            → AreToldApart T.eq job (writing_of T.answers (W.state writer.old way)) told.now
            → renders_view r.1.by_request.items
            ≡ cites_in_order T.eq job (writing_of T.answers (W.state writer.old way)) P.eq) }
        ensures belong { let job = job_in self.entry in
            IfOk result (λ r. (way : W.Way) → W.agrees writer.new way
            → AreToldApart T.eq job (writing_of T.answers (W.state writer.old way)) told.now
            → AreCitesOf T.eq (table_in self.entry) job.requests
            (renders_view r.1.by_request.items)) }
        ensures asked { let job = job_in self.entry in
            OnOk result ((way : W.Way) → W.agrees writer.new way
            → AreToldApart T.eq job (writing_of T.answers (W.state writer.old way)) told.now
            → desk (W.state writer.new way) counter.new
            ≡ after (repeat_cite_tasks T.eq job (writing_of T.answers (W.state writer.old way))
            P.eq) (desk (W.state writer.old way) counter.old)) }
        ensures agreed { OnOk result ((way : W.Way) → W.agrees writer.new way
            → W.agrees writer.old way) }
    {
        let noted = noted_names(alloc, &told.firsts, &told.again)?;
        let mentions = told_mentions(alloc, told, &noted)?;
        let known = MentionsTold {
            told,
            mentions: &mentions,
            noted: &noted,
        };
        let ordered = self.ordered(alloc, notes, known, subjects, writer, counter)?;
        let told_entries = ToldEntries {
            states: &told.states,
            mentions: &mentions,
            suffixes: &told.suffixes,
            numbers: &[],
        };
        let cites = told_cites(
            alloc,
            &told_entries,
            self.requests.requests,
            notes,
            &ordered,
        )?;
        Ok((ordered, cites))
    }

    /// The requests, their cites in the final order, where this is known of mentions. Mentions are
    /// written as the first cites of requests repeat them, by which these are brought together with
    /// others; and then as all cites do in their final order.
    fn ordered<'t, 'p, W: CiteWriter<T, P>>(
        self,
        alloc: Global,
        notes: &[Vec<CiteNotes>],
        known: MentionsTold<'_, '_, '_>,
        subjects: &[Subject<CiteMention<'t, 'p, T, P>>],
        writer: &mut W,
        counter: &mut Renders,
    ) -> Result<Vec<OrderedRequest<'d, 'a, P>>, W::Error>
        requires notes { map (λ n. n.items) notes.now ≡ cite_notes T.eq (job_in self) }
        requires known { IsKnownOf known }
        requires subjects { map plain subjects.now ≡ mentions T.eq (job_in self) }
        ensures ordered { let job = job_in self.entry in
            IfOk result (λ v. (way : W.Way) → W.agrees writer.new way
            → AreToldApart T.eq job (writing_of T.answers (W.state writer.old way))
            known.entry.told.now
            → all_located (all_arranged_view v.items)
            ≡ ordered T.eq job (writing_of T.answers (W.state writer.old way)) P.eq) }
        ensures asked { let job = job_in self.entry in
            OnOk result ((way : W.Way) → W.agrees writer.new way
            → AreToldApart T.eq job (writing_of T.answers (W.state writer.old way))
            known.entry.told.now
            → desk (W.state writer.new way) counter.new
            ≡ after (repeat_cite_tasks T.eq job (writing_of T.answers (W.state writer.old way))
            P.eq) (desk (W.state writer.old way) counter.old)) }
        ensures agreed { OnOk result ((way : W.Way) → W.agrees writer.new way
            → W.agrees writer.old way) }
    {
        let mut plain = self.plain(alloc, notes, known.mentions, &known.told.suffixes)?;
        let firsts = firsts_repeated(alloc, &plain)?;
        let first_shown = shown_repeats(alloc, known, subjects, &firsts, writer, counter)?;
        key_firsts(&mut plain, &first_shown);
        let mut ordered = final_requests(alloc, &plain)?;
        let repeats = cites_repeated(alloc, &ordered)?;
        let shown = all_shown_repeats(alloc, known, subjects, &repeats, writer, counter)?;
        show_cites(&mut ordered, &shown);
        Ok(ordered)
    }

    /// The requests, their cites as they are handed in, where this is known of mentions and
    /// suffixes.
    fn plain(
        self,
        alloc: Global,
        notes: &[Vec<CiteNotes>],
        mentions: &[ToldMention],
        suffixes: &[Option<usize>],
    ) -> Result<Vec<CiteRequest<LocatedCite<'d, 'a, P>>>, AllocError>
        requires { map (λ n. n.items) notes.now ≡ cite_notes T.eq (job_in self) }
        ensures { IfOk result (λ v. map located_request (all_arranged_view v.items)
            ≡ plain_by T.eq (job_in self.entry) mentions.now suffixes.now) }
    {
        let requests = self.requests.requests;
        let table = &self.cited.table;
        let listing = &self.cited.listing;
        plain_requests(alloc, requests, table, listing, notes, mentions, suffixes)
    }

    /// Arranges the cites of all requests, which are in this final order. It returns the numbers of
    /// the entries in the order of the bibliography.
    pub(crate) fn arrange(
        self,
        alloc: Global,
        cites: &mut [SpeculativeCiteRender<'_, 'a, T, P>],
        ordered: &[OrderedRequest<'_, 'a, P>],
    ) -> Result<Vec<usize>, AllocError>
        requires cites { AreCitesOf T.eq (table_in self) (job_in self).requests
            (renders_view cites.old) }
        ensures numbers { IfOk result
            (λ v. v.items ≡ numbers_by T.eq (job_in self.entry) (renders_view cites.old)) }
        ensures cites { let finals = all_located (all_arranged_view ordered.now) in
            IfOk result (λ v. renders_view cites.new ≡ arranged_finally v.items finals
            (arranged_cites (same_locator P.eq) v.items finals) (renders_view cites.old)) }
        ensures belong { OnOk result (AreCitesOf T.eq (table_in self.entry)
            (job_in self.entry).requests (renders_view cites.new)) }
    {
        let numbers = self.listed_numbers(alloc, cites)?;
        let arranged = arranged_cites(alloc, &numbers, ordered)?;
        arrange_finally(cites, &numbers, ordered, &arranged);
        Ok(numbers)
    }

    /// The numbers of the entries in the end, in the order of the bibliography.
    fn listed_numbers(
        self,
        alloc: Global,
        cites: &[SpeculativeCiteRender<'_, 'a, T, P>],
    ) -> Result<Vec<usize>, AllocError>
        requires cites { AreCitesOf T.eq (table_in self) (job_in self).requests
            (renders_view cites.now) }
        ensures { IfOk result
            (λ v. v.items ≡ numbers_by T.eq (job_in self.entry) (renders_view cites.now)) }
    {
        let numbers = self.final_numbers(alloc, cites)?;
        let order = self.cited.listing.order();
        let mut listed = Vec::with_capacity(alloc, order.len())?;
        for place in order {
            listed.push(numbers[*place])?;
        }
        Ok(listed)
    }
}

/// Brings the first cite of each request together with others by what it shows, where that is said.
fn key_firsts<L>(requests: &mut Vec<CiteRequest<RequestedCite<L>>>, shown: &[Option<Shown>])
    ensures { all_arranged_view requests.new.items
        ≡ all_changed with_first_key shown.now (all_arranged_view requests.old.items) }
{
    set_first_keys(requests, shown);
}

/// Says what cites show, by request and by place in its final order, where that is said.
fn show_cites<L>(requests: &mut Vec<CiteRequest<FinalCite<L>>>, shown: &[Vec<Option<Shown>>])
    ensures { all_arranged_view requests.new.items
        ≡ all_changed cites_with_shown (map (λ s. s.items) shown.now)
        (all_arranged_view requests.old.items) }
{
    set_shown(requests, shown);
}

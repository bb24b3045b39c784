//! The whole answer where works are disambiguated as CSL 1.0.2 has it.
ghost use Rattle.std.specs.Prelude.{◌≡◌, IfOk, OnOk, map};
ghost use Rattle.mentions_arranging.specs.Requests.{requests_view as all_arranged_view};
ghost use Rattle.csl_driver.specs.AreCitesOf.{AreCitesOf};
ghost use Rattle.csl_driver.specs.CslAnswer.{cites_in_order, mentions, ordered, told_citations};
ghost use Rattle.csl_driver.specs.CslParts.{AreToldApart, all_located};
ghost use Rattle.csl_driver.specs.CslPromised.{IsExactlyCsl};
ghost use Rattle.csl_driver.specs.CslTasks.{csl_tasks, mention_tasks, order_tasks};
ghost use Rattle.csl_driver.specs.DraftView.{job_in, table_in};
ghost use Rattle.csl_driver.specs.WriterTasks.{last_tasks};
ghost use Rattle.driver_passes.specs.RendersView.{renders_view};
ghost use Rattle.mentions_cited.specs.Plain.{plain};
ghost use Rattle.driver_writers.specs.Desk.{after, desk};
ghost use Rattle.driver_writers.specs.Writing.{asked_for, writing_of};

use crate::csl_account::CslAccount;
use crate::csl_cites::OrderedRequest;
use crate::draft::Draft;
use csl_base::entry::EntryLike;
use csl_base::seq::Seq;
use driver_assembly::rendered::{Rendered, RenderedCitation};
use driver_assembly::without_empty::citation_without_empty;
use driver_passes::acyclic::AcyclicRequest;
use driver_passes::renders::{Cites, SpeculativeCiteRender};
use driver_writers::counter::Renders;
use driver_writers::pushed::push;
use driver_writers::writer::CiteWriter;
use mentions_cited::handed::{cited_again, notes_of_cites};
use mentions_cited::homes::homes;
use mentions_cited::kept::KeptOfMention;
use mentions_cited::mention::CiteMention;
use mentions_cited::mentions::mentions;
use mentions_cited::properties::properties_of_mentions;
use mentions_tables::subject::Subject;
use mentions_tables::tables::{Told, tell_apart};
use std::alloc::Global;

/// What disambiguates all mentions, the requests with their cites in the final order, and these
/// cites.
type ToldInOrder<'d, 'a, T, P> = (
    Told<KeptOfMention>,
    Vec<OrderedRequest<'d, 'a, P>>,
    Cites<'d, 'a, T, P>,
);

impl<'d, 'o, 'a, T: EntryLike, P: Eq + Drop> Draft<'d, 'o, 'a, T, P> {
    /// The answer, and its account. The mentions of all entries are disambiguated; by these the
    /// cites are brought into their final order, numbered and collapsed; then the bibliography is
    /// written, and the citations.
    pub(crate) fn finish_csl<W: CiteWriter<T, P>>(
        self,
        alloc: Global,
        writer: &mut W,
    ) -> Result<(Rendered, CslAccount<'a, T>), W::Error>
        ensures answer { IfOk result (λ r. (way : W.Way) → W.agrees writer.new way
            → IsExactlyCsl T.eq P.eq (writing_of T.answers (W.state writer.old way))
            (job_in self.entry) r) }
        ensures asked { OnOk result ((way : W.Way) → W.agrees writer.new way
            → W.state writer.new way
            ≡ asked_for (csl_tasks T.eq (job_in self.entry)
            (writing_of T.answers (W.state writer.old way)) P.eq) (W.state writer.old way)) }
        ensures agreed { OnOk result ((way : W.Way) → W.agrees writer.new way
            → W.agrees writer.old way) }
    {
        let mut counter = Renders::new();
        let (told, ordered, mut all) = self.told_in_order(alloc, writer, &mut counter)?;
        let cites: &mut [SpeculativeCiteRender<'d, 'a, T, P>] = &mut all.by_request;
        let numbers = self.arrange(alloc, cites, &ordered)?;
        let bibliography = self.told_bibliography(alloc, cites, &told, writer, &mut counter)?;
        let citations = self.told_citations(alloc, cites, writer, &mut counter)?;
        let account = self.csl_account(alloc, told, numbers, &counter)?;
        let rendered = Rendered {
            citations: Seq::new(citations),
            bibliography,
        };
        Ok((rendered, account))
    }

    /// What disambiguates the mentions of all entries, as this writer writes them; the requests,
    /// their cites in the final order; and these cites, before anything of them is written.
    fn told_in_order<W: CiteWriter<T, P>>(
        self,
        alloc: Global,
        writer: &mut W,
        counter: &mut Renders,
    ) -> Result<ToldInOrder<'d, 'a, T, P>, W::Error>
        ensures told { IfOk result (λ r. (way : W.Way) → W.agrees writer.new way
            → AreToldApart T.eq (job_in self.entry)
            (writing_of T.answers (W.state writer.old way)) r.0) }
        ensures ordered { let job = job_in self.entry in
            IfOk result (λ r. (way : W.Way) → W.agrees writer.new way
            → all_located (all_arranged_view r.1.items)
            ≡ ordered T.eq job (writing_of T.answers (W.state writer.old way)) P.eq) }
        ensures cites { let job = job_in self.entry in
            IfOk result (λ r. (way : W.Way) → W.agrees writer.new way
            → renders_view r.2.by_request.items
            ≡ cites_in_order T.eq job (writing_of T.answers (W.state writer.old way)) P.eq) }
        ensures belong { IfOk result (λ r. AreCitesOf T.eq (table_in self.entry)
            (job_in self.entry).requests (renders_view r.2.by_request.items)) }
        ensures asked { OnOk result ((way : W.Way) → W.agrees writer.new way
            → desk (W.state writer.new way) counter.new
            ≡ after (order_tasks T.eq (job_in self.entry)
            (writing_of T.answers (W.state writer.old way)) P.eq)
            (desk (W.state writer.old way) counter.old)) }
        ensures agreed { OnOk result ((way : W.Way) → W.agrees writer.new way
            → W.agrees writer.old way) }
    {
        let cited = self.cited;
        let requests = self.requests.requests;
        let notes = notes_of_cites(alloc, requests, &cited.table, &cited.listing)?;
        let again = cited_again(alloc, requests, &cited.table, &cited.listing)?;
        let homes = homes(alloc, self.requests, &cited.listing, &notes)?;
        let properties = properties_of_mentions(alloc, &homes, cited.offset)?;
        let mentions = mentions(alloc, &homes, &again, &properties)?;
        let told = self.told_apart(alloc, &mentions, writer, counter)?;
        let (ordered, cites) = self.cites_in_order(
            alloc, &notes, &told, &mentions, writer, counter,
        )?;
        Ok((told, ordered, cites))
    }

    /// What disambiguates the mentions of all entries, as this writer writes them.
    fn told_apart<'t, 'p, W: CiteWriter<T, P>>(
        self,
        alloc: Global,
        subjects: &[Subject<CiteMention<'t, 'p, T, P>>],
        writer: &mut W,
        counter: &mut Renders,
    ) -> Result<Told<KeptOfMention>, W::Error>
        requires { map plain subjects.now ≡ mentions T.eq (job_in self) }
        ensures told { IfOk result (λ t. (way : W.Way) → W.agrees writer.new way
            → AreToldApart T.eq (job_in self.entry)
            (writing_of T.answers (W.state writer.old way)) t) }
        ensures asked { OnOk result ((way : W.Way) → W.agrees writer.new way
            → desk (W.state writer.new way) counter.new
            ≡ after (mention_tasks T.eq (job_in self.entry)
            (writing_of T.answers (W.state writer.old way)))
            (desk (W.state writer.old way) counter.old)) }
        ensures agreed { OnOk result ((way : W.Way) → W.agrees writer.new way
            → W.agrees writer.old way) }
    {
        tell_apart(alloc, subjects, writer, counter)
    }

    /// The citation of each request, from its cites as they are arranged.
    fn told_citations<W: CiteWriter<T, P>>(
        self,
        alloc: Global,
        cites: &[SpeculativeCiteRender<'_, '_, T, P>],
        writer: &mut W,
        counter: &mut Renders,
    ) -> Result<Vec<RenderedCitation>, W::Error>
        requires cites { map (λ c. c.request) (renders_view cites.now) ≡ (job_in self).requests }
        ensures citations { IfOk result (λ v. (way : W.Way) → W.agrees writer.new way
            → v.items ≡ told_citations (writing_of T.answers (W.state writer.old way))
            (renders_view cites.now)) }
        ensures asked { OnOk result ((way : W.Way) → W.agrees writer.new way
            → desk (W.state writer.new way) counter.new
            ≡ after (last_tasks (renders_view cites.now))
            (desk (W.state writer.old way) counter.old)) }
        ensures agreed { OnOk result ((way : W.Way) → W.agrees writer.new way
            → W.agrees writer.old way) }
    {
        let mut citations = Vec::with_capacity(alloc, cites.len())?;
        for (index, cite) in cites.iter().enumerate() {
            let request = AcyclicRequest {
                request: cite.request,
            };
            let tree = citation_without_empty(alloc, request, index, &cite.items, writer, counter)?;
            let citation = RenderedCitation {
                note_number: cite.request.note_number(),
                citation: tree,
            };
            push(&mut citations, citation)?;
        }
        Ok(citations)
    }
}

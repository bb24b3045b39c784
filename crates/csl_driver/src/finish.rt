//! The whole answer, from all requests at once.
ghost use Rattle.std.specs.Prelude.{◌≡◌, ◌+◌, length, map, OnOk, IfErr, IfOk};
ghost use Rattle.rounds_grouping.specs.Collapsed.{collapsed_finally};
ghost use Rattle.csl_driver.specs.Answer.{
  citations_of,
  numbered_finally,
  used_order,
  rendered,
  rendered_first,
};
ghost use Rattle.csl_driver.specs.AreCitesOf.{AreCitesOf};
ghost use Rattle.csl_driver.specs.JobView.{job_of};
ghost use Rattle.csl_driver.specs.DraftView.{job_in, table_in};
ghost use Rattle.csl_driver.specs.Promised.{Finishes, FinishesWith, IsAnswer, WhereDriverRefuses};
ghost use Rattle.csl_driver.specs.WriterTasks.{begun_tasks, last_tasks, tasks};
ghost use Rattle.driver_entries.specs.Entries.{number};
ghost use Rattle.rounds_grouping.specs.Blocks.{grouped};
ghost use Rattle.driver_passes.specs.RendersView.{renders_view};
ghost use Rattle.driver_positions.specs.FirstProperties.{numbered_by};
ghost use Rattle.rounds_runs.specs.declared.mode.RoundMode.{RoundMode};
ghost use Rattle.driver_writers.specs.Desk.{after, desk};
ghost use Rattle.driver_writers.specs.Writing.{asked_for, writing_of};
ghost use Rattle.csl_writing.specs.LayoutWriting.{layout_writing};

use crate::account::Account;
use crate::cited::{Cited, used_order};
use crate::draft::Draft;
use crate::driver::BibliographyDriver;
use crate::error::{DriverError, FinishError};
use crate::laws::answers_keep_laws;
use crate::rings::without_rings;
use csl_base::entry::EntryLike;
use csl_base::seq::Seq;
use csl_writing::layout_writer::LayoutWriter;
use driver_assembly::citation::citation_tree;
use driver_assembly::rendered::{Rendered, RenderedCitation};
use driver_passes::acyclic::AcyclicRequest;
use driver_passes::renders::{Cites, SpeculativeCiteRender};
use driver_passes::request::BibliographyRequest;
use driver_positions::final_order::{final_listing, set_final_properties};
use driver_positions::first::first_properties;
use driver_writers::counter::Renders;
use driver_writers::pushed::push;
use driver_writers::writer::CiteWriter;
use rounds_grouping::collapse::collapse_cites;
use rounds_grouping::grouping::group_cites;
use rounds_rendering::first_renders::first_renders;
use rounds_rendering::rounds::disambiguate;
use rounds_runs::mode::RoundMode;
use std::alloc::{AllocError, Global};

impl<'a, T: EntryLike, P: Eq + Drop> BibliographyDriver<'a, T, P> {
    /// Answers all requests: a citation for each, and the bibliography, where its style has one.
    ///
    /// Cites that read alike are disambiguated, cites of one author are grouped, and ranges of
    /// numbers and years are collapsed, as their styles ask for (CSL 1.0.2, disambiguation, cite
    /// grouping, cite collapsing). Positions are those of the final order. Numbers begin at the
    /// offset; they go by the bibliography where an order is handed in and the style has a
    /// bibliography, else by the first cites in their final order. Each cite is written for its
    /// purpose, by its locator; a cite of the year alone is its date text. The entries of the
    /// bibliography are those of the handed order that are cited, and then all others that are
    /// cited, with repeated authors substituted and first fields apart where its style asks for it.
    ///
    /// # Errors
    /// `MacroRing` only where a style has macros that call each other in a ring;
    /// `NumberOverflow` only where none has, and the offset and the number of distinct entries
    /// together are above `usize::MAX`; in both cases there is never an answer. `OutOfMemory` where
    /// memory runs out, at any point.
    pub fn finish(self, request: BibliographyRequest<'_, 'a, T>) -> Result<Rendered, DriverError>
        ensures { Finishes
            (λ r. r ≡ rendered T.eq P.eq (layout_writing T.answers) RoundMode.Three
            (job_of self.entry request.entry))
            T.eq (job_of self.entry request.entry) result }
    {
        let (rendered, _account) = self.finish_counted(request)?;
        Ok(rendered)
    }

    /// Answers all requests, as `finish` does, and reports what it cost and how its entries are
    /// numbered and disambiguated.
    ///
    /// The renderings are two for each cite of each request, hidden or not; one in each round that
    /// marked for each cite whose entry it marked; and, where there is a bibliography, one for each
    /// of its entries.
    ///
    /// # Errors
    /// Those of `finish`.
    pub fn finish_counted(
        self,
        request: BibliographyRequest<'_, 'a, T>,
    ) -> Result<(Rendered, Account<'a, T>), DriverError>
        ensures { Finishes
            (IsAnswer T.eq P.eq (layout_writing T.answers) RoundMode.Three
            (job_of self.entry request.entry))
            T.eq (job_of self.entry request.entry) result }
    {
        Ok(self.finish_with(request, RoundMode::Three, &mut LayoutWriter::new())?)
    }

    /// Answers all requests, as `finish_counted` does, but for the rounds in which cites are
    /// disambiguated: these go on until none marks. In a round each ambiguous group is tried in all
    /// ways, and a mark counts only where it is greater than the state of its entry; a group waits
    /// for the next round where an entry of it was marked in this one. Each round that marks raises
    /// the rank of some entry and lowers none, so of n distinct entries, where no first name has
    /// more than F forms, at most n(3F + 3) rounds mark.
    ///
    /// # Errors
    /// Those of `finish`.
    pub fn finish_full(
        self,
        request: BibliographyRequest<'_, 'a, T>,
    ) -> Result<(Rendered, Account<'a, T>), DriverError>
        ensures { Finishes
            (IsAnswer T.eq P.eq (layout_writing T.answers) RoundMode.Full
            (job_of self.entry request.entry))
            T.eq (job_of self.entry request.entry) result }
    {
        Ok(self.finish_with(request, RoundMode::Full, &mut LayoutWriter::new())?)
    }

    /// Answers all requests, as `finish_counted` does or, in mode full, as `finish_full` does, with
    /// cites, items and dates as this writer writes them. The account counts how often it was
    /// asked.
    ///
    /// A way is a whole rule by which the writer may turn out to write (`CiteWriter`). In every way
    /// with which the writer agrees in the end, the answer is the specified one of what that rule
    /// gives, and the writer was asked for exactly what that answer asks for.
    ///
    /// # Errors
    /// `Driver` where `finish` refuses before anything is rendered, so that the writer wasn't asked
    /// for anything and is as it was; `Writer`, with the writer's own error, where it refuses, and
    /// where memory runs out later on.
    pub fn finish_with<W: CiteWriter<T, P>>(
        self,
        request: BibliographyRequest<'_, 'a, T>,
        mode: RoundMode,
        writer: &mut W,
    ) -> Result<(Rendered, Account<'a, T>), FinishError<W::Error>>
        ensures finished { FinishesWith T.eq (job_of self.entry request.entry)
            (λ r. (way : W.Way) → W.agrees writer.new way
            → IsAnswer T.eq P.eq (writing_of T.answers (W.state writer.old way)) mode
            (job_of self.entry request.entry) r) result }
        ensures asked { OnOk result ((way : W.Way) → W.agrees writer.new way
            → W.state writer.new way
            ≡ asked_for (tasks T.eq P.eq (writing_of T.answers (W.state writer.old way)) mode
            (job_of self.entry request.entry)) (W.state writer.old way)) }
        ensures agreed { OnOk result ((way : W.Way) → W.agrees writer.new way
            → W.agrees writer.old way) }
        ensures unasked { IfErr result (WhereDriverRefuses (writer.new ≡ writer.old)) }
    {
        self.answer_with(&request, mode, writer)
    }

    /// Answers all requests, as `finish_with` does, and leaves the driver and the request as they
    /// are, for another call.
    ///
    /// # Errors
    /// Those of `finish_with`.
    pub fn answer_with<W: CiteWriter<T, P>>(
        &self,
        request: &BibliographyRequest<'_, 'a, T>,
        mode: RoundMode,
        writer: &mut W,
    ) -> Result<(Rendered, Account<'a, T>), FinishError<W::Error>>
        ensures finished { FinishesWith T.eq (job_of self.now request.now)
            (λ r. (way : W.Way) → W.agrees writer.new way
            → IsAnswer T.eq P.eq (writing_of T.answers (W.state writer.old way)) mode
            (job_of self.now request.now) r) result }
        ensures asked { OnOk result ((way : W.Way) → W.agrees writer.new way
            → W.state writer.new way
            ≡ asked_for (tasks T.eq P.eq (writing_of T.answers (W.state writer.old way)) mode
            (job_of self.now request.now)) (W.state writer.old way)) }
        ensures agreed { OnOk result ((way : W.Way) → W.agrees writer.new way
            → W.agrees writer.old way) }
        ensures unasked { IfErr result (WhereDriverRefuses (writer.new ≡ writer.old)) }
    {
        let alloc = self.alloc;
        let (requests, wanted) = without_rings(alloc, &self.citations, request)?;
        let cited = Cited::by_requests(alloc, requests, wanted, self.citation_number_offset)?;
        let draft = Draft {
            requests,
            wanted,
            cited: &cited,
        };
        match draft.finish(alloc, mode, writer) {
            Ok(answer) => Ok(answer),
            Err(error) => Err(FinishError::Writer(error)),
        }
    }
}

impl<'d, 'o, 'a, T: EntryLike, P: Eq + Drop> Draft<'d, 'o, 'a, T, P> {
    /// The answer, and its account. The cites are rendered a first time, disambiguated and grouped,
    /// which is their final order, and get the numbers of the end; then the bibliography is
    /// written, and from the collapsed cites the citations.
    pub(crate) fn finish<W: CiteWriter<T, P>>(
        self,
        alloc: Global,
        mode: RoundMode,
        writer: &mut W,
    ) -> Result<(Rendered, Account<'a, T>), W::Error>
        ensures answer { IfOk result (λ r. (way : W.Way) → W.agrees writer.new way
            → IsAnswer T.eq P.eq (writing_of T.answers (W.state writer.old way)) mode
            (job_in self.entry) r) }
        ensures asked { OnOk result ((way : W.Way) → W.agrees writer.new way
            → W.state writer.new way
            ≡ asked_for (tasks T.eq P.eq (writing_of T.answers (W.state writer.old way)) mode
            (job_in self.entry)) (W.state writer.old way)) }
        ensures agreed { OnOk result ((way : W.Way) → W.agrees writer.new way
            → W.agrees writer.old way) }
    {
        let table = &self.cited.table;
        let mut counter = Renders::new();
        let mut first = self.render_first(alloc, writer, &mut counter)?;
        let cites: &mut [SpeculativeCiteRender<'d, 'a, T, P>] = &mut first.by_request;
        let rounds = disambiguate(alloc, cites, table, mode, writer, &mut counter)?;
        group_all(alloc, cites)?;
        let numbers = self.final_numbers(alloc, cites)?;
        set_final_properties(cites, table, &numbers);
        let bibliography = self.bibliography(alloc, cites, writer, &mut counter)?;
        collapse_all(cites);
        let citations = self.citations(alloc, cites, writer, &mut counter)?;
        let account = self.account(alloc, rounds, numbers, &counter)?;
        // a law: the contract speaks of it, and nothing is done
        answers_keep_laws::<T, P>();
        let rendered = Rendered {
            citations: Seq::new(citations),
            bibliography,
        };
        Ok((rendered, account))
    }

    /// Renders the cites of all requests by their first properties. Their numbers are those of the
    /// bibliography.
    fn render_first<W: CiteWriter<T, P>>(
        self,
        alloc: Global,
        writer: &mut W,
        counter: &mut Renders,
    ) -> Result<Cites<'d, 'a, T, P>, W::Error>
        ensures cites { IfOk result (λ c. (way : W.Way) → W.agrees writer.new way
            → renders_view c.by_request.items
            ≡ rendered_first T.eq P.eq (writing_of T.answers (W.state writer.old way))
            (job_in self.entry)) }
        ensures asked { OnOk result ((way : W.Way) → W.agrees writer.new way
            → desk (W.state writer.new way) counter.new
            ≡ after (begun_tasks T.eq P.eq (job_in self.entry))
            (desk (W.state writer.old way) counter.old)) }
        ensures agreed { OnOk result ((way : W.Way) → W.agrees writer.new way
            → W.agrees writer.old way) }
    {
        let table = &self.cited.table;
        let numbers = self.cited.numbers(alloc, &self.cited.listing)?;
        let firsts = first_properties(alloc, self.requests.requests, table, &numbers)?;
        let cites = first_renders(alloc, self.requests, &firsts, writer, counter)?;
        Ok(cites)
    }

    /// The numbers of the entries in the end, by their indexes in the table: those of the
    /// bibliography where an order is used, else those of the cites in their final order. Behind
    /// them stands the number that the next entry would have.
    pub(crate) fn final_numbers(
        self,
        alloc: Global,
        cites: &[SpeculativeCiteRender<'_, 'a, T, P>],
    ) -> Result<Vec<usize>, AllocError>
        requires cites { AreCitesOf T.eq (table_in self) (job_in self).requests
            (renders_view cites.now) }
        ensures long { IfOk result
            (λ v. length v.items ≡ length (table_in self.entry).entries + 1) }
        ensures numbers { let job = job_in self.entry in
            IfOk result (λ v. numbered_by T.eq v.items (table_in self.entry).entries
            ≡ number T.eq job.offset
            (numbered_finally T.eq (used_order job.wanted) job.requests (renders_view cites.now))) }
    {
        match used_order(self.wanted.wanted) {
            Some(_) => self.cited.numbers(alloc, &self.cited.listing),
            None => {
                let listing = final_listing(alloc, cites, &self.cited.table)?;
                self.cited.numbers(alloc, &listing)
            }
        }
    }

    /// The citation of each request, from its collapsed cites.
    fn citations<W: CiteWriter<T, P>>(
        self,
        alloc: Global,
        cites: &[SpeculativeCiteRender<'_, '_, T, P>],
        writer: &mut W,
        counter: &mut Renders,
    ) -> Result<Vec<RenderedCitation>, W::Error>
        requires cites { map (λ c. c.request) (renders_view cites.now) ≡ (job_in self).requests }
        ensures citations { IfOk result (λ v. (way : W.Way) → W.agrees writer.new way
            → v.items ≡ citations_of (writing_of T.answers (W.state writer.old way))
            (renders_view cites.now)) }
        ensures asked { OnOk result ((way : W.Way) → W.agrees writer.new way
            → desk (W.state writer.new way) counter.new
            ≡ after (last_tasks (renders_view cites.now))
            (desk (W.state writer.old way) counter.old)) }
        ensures agreed { OnOk result ((way : W.Way) → W.agrees writer.new way
            → W.agrees writer.old way) }
    {
        let mut citations = Vec::with_capacity(alloc, cites.len())?;
        for (index, cite) in cites.iter().enumerate() {
            let request = AcyclicRequest {
                request: cite.request,
            };
            let citation = RenderedCitation {
                note_number: cite.request.note_number(),
                citation: citation_tree(alloc, request, index, &cite.items, writer, counter)?,
            };
            push(&mut citations, citation)?;
        }
        Ok(citations)
    }
}

/// Brings the cites of each request into their blocks.
fn group_all<T, P>(
    alloc: Global,
    cites: &mut [SpeculativeCiteRender<'_, '_, T, P>],
) -> Result<(), AllocError>
    ensures { OnOk result (renders_view cites.new ≡ map grouped (renders_view cites.old)) }
{
    for r in 0..cites.len() {
        group_cites(alloc, &mut cites[r])?;
    }
    Ok(())
}

/// Collapses the cites of each request in which none has a purpose.
fn collapse_all<T, P>(cites: &mut [SpeculativeCiteRender<'_, '_, T, P>])
    ensures { renders_view cites.new ≡ map collapsed_finally (renders_view cites.old) }
{
    for r in 0..cites.len() {
        collapse_cites(&mut cites[r]);
    }
}

//! The whole answer, from all requests at once, where works are disambiguated as CSL 1.0.2 has it.
ghost use Rattle.std.specs.Prelude.{◌≡◌, OnOk, IfErr};
ghost use Rattle.csl_driver.specs.CslPromised.{IsCslAnswer};
ghost use Rattle.csl_driver.specs.CslTasks.{csl_tasks};
ghost use Rattle.csl_driver.specs.JobView.{job_of};
ghost use Rattle.csl_driver.specs.Promised.{Finishes, FinishesWith, WhereDriverRefuses};
ghost use Rattle.driver_writers.specs.Writing.{asked_for, writing_of};
ghost use Rattle.csl_writing.specs.LayoutWriting.{layout_writing};

use crate::cited::Cited;
use crate::csl_account::CslAccount;
use crate::draft::Draft;
use crate::driver::BibliographyDriver;
use crate::error::{DriverError, FinishError};
use crate::laws::csl_answers_keep_laws;
use crate::rings::without_rings;
use csl_base::entry::EntryLike;
use csl_writing::layout_writer::LayoutWriter;
use driver_assembly::rendered::Rendered;
use driver_passes::request::BibliographyRequest;
use driver_writers::writer::CiteWriter;

impl<'a, T: EntryLike, P: Eq + Drop> BibliographyDriver<'a, T, P> {
    /// Answers all requests: a citation for each, and the bibliography, where its style has one.
    /// Works are disambiguated as CSL 1.0.2 has it (disambiguation); the account says by what.
    ///
    /// Each entry has two mentions: the first reads as its first cite, the later one as a cite that
    /// names it again. Mentions of several entries that read alike are disambiguated by names, as
    /// the style of each allows; then by the condition `disambiguate`, if they test it; and entries
    /// whose later mentions still read alike get year suffixes, in the order of the bibliography.
    /// Each of the three is tried once, and every cite reads by what disambiguates its mention.
    ///
    /// Cites whose names are shown alike are grouped; years, suffixes and numbers are collapsed,
    /// but not in a request with a purpose (CSL 1.0.2, cite grouping, cite collapsing). A cite that
    /// is written as nothing isn't shown. Items of the bibliography are written without the names
    /// that disambiguation adds, and repeated authors are substituted in them.
    ///
    /// The renderings are two for each distinct entry; one for each mention that got other names,
    /// and one for each whose condition holds; where requests of two cites or more are grouped or
    /// collapsed, one for each whose first cite repeats one, and one for each cite that repeats one
    /// in the final order; one for each cite, hidden or not; and, where there is a bibliography,
    /// one for each of its entries.
    ///
    /// # Errors
    /// `MacroRing` only where a style has macros that call each other in a ring;
    /// `NumberOverflow` only where none has, and the offset and the number of distinct entries
    /// together are above `usize::MAX`; in both cases there is never an answer. `OutOfMemory` where
    /// memory runs out, at any point.
    pub fn finish_csl(
        self,
        request: BibliographyRequest<'_, 'a, T>,
    ) -> Result<(Rendered, CslAccount<'a, T>), DriverError>
        ensures { Finishes
            (IsCslAnswer T.eq P.eq (layout_writing T.answers) (job_of self.entry request.entry))
            T.eq (job_of self.entry request.entry) result }
    {
        Ok(self.finish_csl_with(request, &mut LayoutWriter::new())?)
    }

    /// Answers all requests, as `finish_csl` does, with cites, items and dates as this writer
    /// writes them, in every way with which it agrees in the end, as in `finish_with`. The account
    /// counts how often it was asked.
    ///
    /// # Errors
    /// `Driver` where `finish_csl` refuses before anything is rendered, so that the writer wasn't
    /// asked for anything and is as it was; `Writer`, with the writer's own error, where it refuses,
    /// and where memory runs out later on.
    pub fn finish_csl_with<W: CiteWriter<T, P>>(
        self,
        request: BibliographyRequest<'_, 'a, T>,
        writer: &mut W,
    ) -> Result<(Rendered, CslAccount<'a, T>), FinishError<W::Error>>
        ensures finished { FinishesWith T.eq (job_of self.entry request.entry)
            (λ r. (way : W.Way) → W.agrees writer.new way
            → IsCslAnswer T.eq P.eq (writing_of T.answers (W.state writer.old way))
            (job_of self.entry request.entry) r) result }
        ensures asked { OnOk result ((way : W.Way) → W.agrees writer.new way
            → W.state writer.new way
            ≡ asked_for (csl_tasks T.eq (job_of self.entry request.entry)
            (writing_of T.answers (W.state writer.old way)) P.eq) (W.state writer.old way)) }
        ensures agreed { OnOk result ((way : W.Way) → W.agrees writer.new way
            → W.agrees writer.old way) }
        ensures unasked { IfErr result (WhereDriverRefuses (writer.new ≡ writer.old)) }
    {
        self.answer_csl_with(&request, writer)
    }

    /// Answers all requests, as `finish_csl_with` does, and leaves the driver and the request as
    /// they are, for another call.
    ///
    /// # Errors
    /// Those of `finish_csl_with`.
    pub fn answer_csl_with<W: CiteWriter<T, P>>(
        &self,
        request: &BibliographyRequest<'_, 'a, T>,
        writer: &mut W,
    ) -> Result<(Rendered, CslAccount<'a, T>), FinishError<W::Error>>
        ensures finished { FinishesWith T.eq (job_of self.now request.now)
            (λ r. (way : W.Way) → W.agrees writer.new way
            → IsCslAnswer T.eq P.eq (writing_of T.answers (W.state writer.old way))
            (job_of self.now request.now) r) result }
        ensures asked { OnOk result ((way : W.Way) → W.agrees writer.new way
            → W.state writer.new way
            ≡ asked_for (csl_tasks T.eq (job_of self.now request.now)
            (writing_of T.answers (W.state writer.old way)) P.eq) (W.state writer.old way)) }
        ensures agreed { OnOk result ((way : W.Way) → W.agrees writer.new way
            → W.agrees writer.old way) }
        ensures unasked { IfErr result (WhereDriverRefuses (writer.new ≡ writer.old)) }
    {
        let alloc = self.alloc;
        let (requests, wanted) = without_rings(alloc, &self.citations, request)?;
        let cited = Cited::by_requests(alloc, requests, wanted, self.citation_number_offset)?;
        let draft = Draft {
            requests,
            wanted,
            cited: &cited,
        };
        csl_answers_keep_laws::<T, P>();
        match draft.finish_csl(alloc, writer) {
            Ok(answer) => Ok(answer),
            Err(error) => Err(FinishError::Writer(error)),
        }
    }
}

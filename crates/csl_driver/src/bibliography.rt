//! The bibliography of an answer.
ghost use Rattle.std.specs.Prelude.{◌≡◌, IfOk, OnOk, option_map};
ghost use Rattle.std.specs.List.{filter_map};
ghost use Rattle.driver_assembly.specs.BibliographyItems.{
  bibliography_of,
  bibliography_tasks,
  cites_at,
};
ghost use Rattle.csl_driver.specs.Answer.{entries_listed};
ghost use Rattle.csl_driver.specs.AreCitesOf.{AreCitesOf};
ghost use Rattle.csl_driver.specs.DraftView.{job_in, table_in};
ghost use Rattle.csl_driver.specs.WriterTasks.{where_wanted};
ghost use Rattle.driver_passes.specs.RendersView.{renders_view};
ghost use Rattle.driver_passes.specs.Request.{wanted_source};
ghost use Rattle.driver_positions.specs.FinalProperties.{first_item};
ghost use Rattle.driver_writers.specs.Desk.{after, desk};
ghost use Rattle.driver_writers.specs.Writing.{writing_of};

use crate::draft::Draft;
use csl_base::entry::EntryLike;
use driver_assembly::bibliography::bibliography_of;
use driver_assembly::rendered::RenderedBibliography;
use driver_passes::renders::SpeculativeCiteRender;
use driver_positions::final_order::first_items;
use driver_writers::counter::Renders;
use driver_writers::writer::CiteWriter;
use std::alloc::{AllocError, Global};

impl<'d, 'o, 'a, T: EntryLike, P: Drop> Draft<'d, 'o, 'a, T, P> {
    /// The bibliography, where the style that was asked for has one.
    pub(crate) fn bibliography<W: CiteWriter<T, P>>(
        self,
        alloc: Global,
        cites: &[SpeculativeCiteRender<'_, 'a, T, P>],
        writer: &mut W,
        counter: &mut Renders,
    ) -> Result<Option<RenderedBibliography>, W::Error>
        requires cites { AreCitesOf T.eq (table_in self) (job_in self).requests
            (renders_view cites.now) }
        ensures bibliography { let job = job_in self.entry in
            IfOk result (λ r. (way : W.Way) → W.agrees writer.new way → r
            ≡ option_map (λ b. bibliography_of (writing_of T.answers (W.state writer.old way))
            (wanted_source job.wanted) b
            (filter_map (first_item T.eq (renders_view cites.now))
            (entries_listed T.eq job.wanted job.requests)))
            job.wanted.style.bibliography) }
        ensures asked { let job = job_in self.entry in
            OnOk result ((way : W.Way) → W.agrees writer.new way
            → desk (W.state writer.new way) counter.new
            ≡ after (where_wanted job.wanted.style.bibliography
            (bibliography_tasks (wanted_source job.wanted)
            (filter_map (first_item T.eq (renders_view cites.now))
            (entries_listed T.eq job.wanted job.requests))))
            (desk (W.state writer.old way) counter.old)) }
        ensures agreed { OnOk result ((way : W.Way) → W.agrees writer.new way
            → W.agrees writer.old way) }
    {
        match &self.wanted.wanted.style.bibliography {
            Some(style) => {
                let firsts = self.first_cites(alloc, cites)?;
                let wanted = self.wanted;
                let made = bibliography_of(alloc, wanted, style, cites, &firsts, writer, counter)?;
                Ok(Some(made))
            }
            None => Ok(None),
        }
    }

    /// Where the first cites of the bibliography's entries stand in the final order.
    fn first_cites(
        self,
        alloc: Global,
        cites: &[SpeculativeCiteRender<'_, 'a, T, P>],
    ) -> Result<Vec<(usize, usize)>, AllocError>
        requires cites { AreCitesOf T.eq (table_in self) (job_in self).requests
            (renders_view cites.now) }
        ensures { let job = job_in self.entry in
            IfOk result (λ v. cites_at (renders_view cites.now) v.items
            ≡ filter_map (first_item T.eq (renders_view cites.now))
            (entries_listed T.eq job.wanted job.requests)) }
    {
        let places = first_items(alloc, cites, &self.cited.table)?;
        let order = self.cited.listing.order();
        let mut firsts = Vec::with_capacity(alloc, order.len())?;
        for entry in order {
            let first = places[*entry];
            if let Some(place) = first {
                firsts.push(place)?;
            }
        }
        Ok(firsts)
    }
}

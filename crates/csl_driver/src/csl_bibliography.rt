//! The bibliography of an answer where works are disambiguated as CSL 1.0.2 has it.
ghost use Rattle.std.specs.Prelude.{◌≡◌, IfOk, OnOk, length, option_map};
ghost use Rattle.driver_assembly.specs.ByMeans.{
  bibliography_by_means,
  cites_with_means,
  tasks_by_means,
};
ghost use Rattle.csl_driver.specs.AreCitesOf.{AreCitesOf};
ghost use Rattle.csl_driver.specs.CslAnswer.{item_means, listed, listed_cites};
ghost use Rattle.csl_driver.specs.DraftView.{job_in, table_in};
ghost use Rattle.csl_driver.specs.WriterTasks.{where_wanted};
ghost use Rattle.driver_passes.specs.RendersView.{renders_view};
ghost use Rattle.driver_passes.specs.Request.{wanted_source};
ghost use Rattle.driver_writers.specs.Desk.{after, desk};
ghost use Rattle.driver_writers.specs.Writing.{writing_of};

use crate::draft::Draft;
use csl_base::entry::EntryLike;
use driver_assembly::by_means::{ItemMeans, bibliography_by_means};
use driver_assembly::rendered::RenderedBibliography;
use driver_passes::renders::SpeculativeCiteRender;
use driver_positions::final_order::first_items;
use driver_writers::counter::Renders;
use driver_writers::writer::CiteWriter;
use mentions_cited::kept::KeptOfMention;
use mentions_cites::mentions::{by_mention, suffix_number};
use mentions_tables::tables::Told;
use std::alloc::{AllocError, Global};

/// The means of the item of the entry at an index: the choice of its later mention, and its suffix.
fn item_means(told: &Told<KeptOfMention>, entry: usize) -> ItemMeans
    ensures { result ≡ item_means told.now.states.items told.now.suffixes.items entry }
{
    let choose = match by_mention(&told.states, entry, false) {
        Some(state) => state.chosen,
        None => false,
    };
    ItemMeans {
        choose,
        suffix: suffix_number(&told.suffixes, entry),
    }
}

impl<'d, 'o, 'a, T: EntryLike, P: Drop> Draft<'d, 'o, 'a, T, P> {
    /// The bibliography, where the style that was asked for has one, from the cites as they are
    /// arranged.
    pub(crate) fn told_bibliography<W: CiteWriter<T, P>>(
        self,
        alloc: Global,
        cites: &[SpeculativeCiteRender<'_, 'a, T, P>],
        told: &Told<KeptOfMention>,
        writer: &mut W,
        counter: &mut Renders,
    ) -> Result<Option<RenderedBibliography>, W::Error>
        requires cites { AreCitesOf T.eq (table_in self) (job_in self).requests
            (renders_view cites.now) }
        ensures bibliography { let job = job_in self.entry in
            let means = item_means told.now.states.items told.now.suffixes.items in
            let firsts = listed_cites T.eq means (renders_view cites.now) (listed T.eq job) in
            IfOk result (λ r. (way : W.Way) → W.agrees writer.new way → r
            ≡ option_map (λ b. bibliography_by_means
            (writing_of T.answers (W.state writer.old way))
            (wanted_source job.wanted) b firsts) job.wanted.style.bibliography) }
        ensures asked { let job = job_in self.entry in
            let means = item_means told.now.states.items told.now.suffixes.items in
            let firsts = listed_cites T.eq means (renders_view cites.now) (listed T.eq job) in
            OnOk result ((way : W.Way) → W.agrees writer.new way
            → desk (W.state writer.new way) counter.new
            ≡ after (where_wanted job.wanted.style.bibliography
            (tasks_by_means (wanted_source job.wanted) firsts))
            (desk (W.state writer.old way) counter.old)) }
        ensures agreed { OnOk result ((way : W.Way) → W.agrees writer.new way
            → W.agrees writer.old way) }
    {
        match &self.wanted.wanted.style.bibliography {
            Some(style) => {
                let (places, means) = self.told_first_cites(alloc, cites, told)?;
                let made = bibliography_by_means(
                    alloc,
                    self.wanted,
                    style,
                    cites,
                    &places,
                    &means,
                    writer,
                    counter,
                )?;
                Ok(Some(made))
            }
            None => Ok(None),
        }
    }

    /// Where the first cites of the bibliography's entries stand in the final order, and at the
    /// same indices the means of their items.
    fn told_first_cites(
        self,
        alloc: Global,
        cites: &[SpeculativeCiteRender<'_, 'a, T, P>],
        told: &Told<KeptOfMention>,
    ) -> Result<(Vec<(usize, usize)>, Vec<ItemMeans>), AllocError>
        requires cites { AreCitesOf T.eq (table_in self) (job_in self).requests
            (renders_view cites.now) }
        ensures long { IfOk result (λ r. length r.1.items ≡ length r.0.items) }
        ensures cites { let means = item_means told.now.states.items told.now.suffixes.items in
            IfOk result (λ r. cites_with_means (renders_view cites.now) r.0.items r.1.items
            ≡ listed_cites T.eq means (renders_view cites.now) (listed T.eq (job_in self.entry))) }
    {
        let firsts = first_items(alloc, cites, &self.cited.table)?;
        let order = self.cited.listing.order();
        let mut places = Vec::with_capacity(alloc, order.len())?;
        let mut means = Vec::with_capacity(alloc, order.len())?;
        for (index, entry) in order.iter().enumerate() {
            let first = firsts[*entry];
            if let Some(place) = first {
                places.push(place)?;
                means.push(item_means(told, index))?;
            }
        }
        Ok((places, means))
    }
}

//! A writer of cites that is asked for mentions.
ghost use Rattle.std.specs.Prelude.{◌≡◌, ◌∷◌, [], IfOk, OnOk};
ghost use Rattle.driver_lookup.specs.PropertiesView.{properties_view};
ghost use Rattle.driver_writers.specs.Desk.{after, desk};
ghost use Rattle.driver_writers.specs.Tasks.{cite_task};
ghost use Rattle.mentions_tables.specs.Asked.{is_told};
ghost use Rattle.mentions_cited.specs.Cited.{with_properties};
ghost use Rattle.mentions_cited.specs.Kept.{written_mention};

use crate::kept::{KeptOfMention, Noted, written_mention};
use crate::means::with_means;
use crate::mention::CiteMention;
use csl_base::entry::EntryLike;
use driver_lookup::properties::CiteProperties;
use driver_writers::asking::written_cite;
use driver_writers::counter::Renders;
use driver_writers::task::CiteTask;
use driver_writers::writer::CiteWriter;
use mentions_groups::state::MentionState;
use mentions_tables::writer::{WrittenBy, WrittenMention};
use std::alloc::Global;

/// Whether something disambiguates a mention.
fn is_told(state: &MentionState) -> bool
    ensures { result ≡ is_told state.now }
{
    state.chosen || state.names.is_some()
}

/// A mention as the writer writes it by these properties.
pub(crate) fn written_by<T: EntryLike, P, W: CiteWriter<T, P>>(
    alloc: Global,
    mention: &CiteMention<'_, '_, T, P>,
    properties: &CiteProperties<'_, P>,
    writer: &mut W,
    counter: &mut Renders,
) -> Result<WrittenMention<KeptOfMention>, W::Error>
    ensures written { IfOk result (λ w. (way : W.Way) → W.agrees writer.new way
        → w ≡ written_mention ((W.state writer.old way).cite
        (with_properties mention.now (properties_view properties.now)))) }
    ensures asked { OnOk result ((way : W.Way) → W.agrees writer.new way
        → desk (W.state writer.new way) counter.new
        ≡ after (cite_task (with_properties mention.now (properties_view properties.now)) ∷ [])
        (desk (W.state writer.old way) counter.old)) }
    ensures agreed { OnOk result ((way : W.Way) → W.agrees writer.new way
        → W.agrees writer.old way) }
{
    let task = CiteTask {
        source: mention.source,
        entry: mention.entry,
        properties,
        purpose: None,
        verdict: None,
        place: None,
    };
    let cite = written_cite(alloc, task, writer, counter)?;
    Ok(written_mention(alloc, &cite)?)
}

impl<'t, 'p, T: EntryLike, P: Drop, W: CiteWriter<T, P>> WrittenBy<W, Renders>
    for CiteMention<'t, 'p, T, P> {
    ghost use Rattle.mentions_cited.specs.Cited.{WritesOn, cited};
    ghost use Rattle.mentions_cited.specs.WritesOn.{writes-on-further, writes-on-itself};

    type Error = W::Error;

    type Kept = KeptOfMention;

    type Notes = Noted<W::Note>;

    ghost Way = { W.Way };

    ghost agrees = { λ w way. W.agrees w way };

    ghost writing = { λ w n way. cited (W.state w way) n };

    ghost goes_on = { λ w v. (way : W.Way) → W.agrees v way
        → W.agrees w way × WritesOn (W.state w way) (W.state v way) };

    ghost stays = { λ w way ok. (ok, writes-on-itself (W.state w way)) };

    ghost follows = { λ u v w first second way ok. (
      (first way (second way ok).0).0,
      writes-on-further (first way (second way ok).0).1 (second way ok).1,
    ) };

    ghost agreed_before = { λ u v way on ok. (on way ok).0 };

    fn write_first(
        &self,
        alloc: Global,
        writer: &mut W,
        counter: &mut Renders,
    ) -> Result<WrittenMention<KeptOfMention>, W::Error> {
        written_by(alloc, self, self.properties, writer, counter)
    }

    fn write_again(
        &self,
        alloc: Global,
        told: &MentionState,
        first: &KeptOfMention,
        writer: &mut W,
        counter: &mut Renders,
    ) -> Result<WrittenMention<KeptOfMention>, W::Error> {
        if !is_told(told) {
            return written_by(alloc, self, self.properties, writer, counter);
        }
        let properties = with_means(self.properties, told, first.usage)?;
        written_by(alloc, self, &properties, writer, counter)
    }

    ghost some_way = { λ w. W.some_way w };
}

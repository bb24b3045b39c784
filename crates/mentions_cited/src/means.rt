//! The means that disambiguate a mention from others, as a writer of cites is given them.
ghost use Rattle.std.specs.Prelude.{◌≡◌, IfOk, None};
ghost use Rattle.mentions_cited.specs.ToldMeans.{means_of, with_ibid, with_means};
ghost use Rattle.driver_lookup.specs.PropertiesView.{properties_view};

use driver_lookup::means::Means;
use driver_lookup::properties::{CiteProperties, SpeculativeCiteProperties};
use driver_lookup::state::{IbidState, IdentifierUsage};
use mentions_groups::state::MentionState;
use std::alloc::AllocError;
use value_sources::names::NameDisambiguationProperties;

fn copied_names(
    names: &Option<NameDisambiguationProperties>,
) -> Result<Option<NameDisambiguationProperties>, AllocError>
    ensures { IfOk result (λ n. n ≡ names.now) }
{
    match names {
        Some(names) => Ok(Some(names.clone()?)),
        None => Ok(None),
    }
}

/// The means of a mention in this state, whose entry has this suffix.
///
/// # Errors
///
/// Where memory is refused.
pub fn means_of(told: &MentionState, suffix: Option<usize>) -> Result<Means, AllocError>
    ensures { IfOk result (λ m. m ≡ means_of told.now suffix) }
{
    Ok(Means {
        names: copied_names(&told.names)?,
        choose: told.chosen,
        suffix,
    })
}

/// The properties of a mention that is written again in this state, with the usage that its first
/// writing noted.
pub(crate) fn with_means<'p, P: Drop>(
    properties: &CiteProperties<'p, P>,
    told: &MentionState,
    usage: IdentifierUsage,
) -> Result<CiteProperties<'p, P>, AllocError>
    ensures { IfOk result (λ p. properties_view p
        ≡ with_means (properties_view properties.now) told.now usage) }
{
    let speculative = &properties.speculative;
    Ok(CiteProperties {
        certain: properties.certain,
        speculative: SpeculativeCiteProperties {
            locator: speculative.locator.clone()?,
            citation_number: speculative.citation_number,
            ibid: speculative.ibid,
            disambiguation: speculative.disambiguation.clone()?,
            means: means_of(told, None)?,
            identifier_usage: usage,
        },
    })
}

/// The properties of a mention that repeats the cite before it in this way.
pub(crate) fn with_ibid<'p, P>(
    properties: CiteProperties<'p, P>,
    ibid: IbidState,
) -> CiteProperties<'p, P>
    ensures { properties_view result ≡ with_ibid (properties_view properties.entry) ibid }
{
    CiteProperties {
        certain: properties.certain,
        speculative: SpeculativeCiteProperties {
            ibid,
            ..properties.speculative
        },
    }
}

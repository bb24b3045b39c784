//! The mentions of entries, as they are written and disambiguated.
ghost use Rattle.std.specs.Prelude.{◌≡◌, ◌+◌, ◌*◌, ℕ, IfOk, length, map, nat_eq};
ghost use Rattle.std.specs.List.{list_any};
ghost use Rattle.driver_lookup.specs.PropertiesView.{properties_view};
ghost use Rattle.value_styles.specs.StyleView.{citation_view};
ghost use Rattle.mentions_cited.specs.HomeView.{home_view, homes_view};
ghost use Rattle.mentions_cited.specs.Mentions.{
  all_properties,
  given_name_rule,
  mention,
  mention_properties,
  mentions_at,
};
ghost use Rattle.mentions_cited.specs.Plain.{plain};

use crate::home::Home;
use crate::mention::CiteMention;
use driver_lookup::properties::CiteProperties;
use indexmap::IndexSet;
use mentions_tables::subject::Subject;
use std::alloc::{AllocError, Global};
use value_styles::style::{Citation, DisambiguationRule};

/// The rule by which a style adds given names, if it does.
fn given_name_rule(citation: &Citation) -> Option<DisambiguationRule>
    ensures { result ≡ given_name_rule (citation_view citation.now) }
{
    if citation.disambiguate_add_givenname {
        Some(citation.givenname_disambiguation_rule)
    } else {
        None
    }
}

/// Whether an entry is among these, by its index.
fn is_among(entries: &IndexSet<usize>, index: usize) -> bool
    ensures { result ≡ list_any (nat_eq index) entries.now.keys }
{
    entries.contains(&index)
}

/// The first mention of the entry at an index, or the later one, with these properties. The entry
/// is cited again, or isn't.
fn mention<'t, 'r: 't, 'a: 't, 'p, T, P>(
    home: &Home<'r, 'a, T, P>,
    index: usize,
    again: bool,
    properties: &'t CiteProperties<'p, P>,
    is_first: bool,
) -> Subject<CiteMention<'t, 'p, T, P>>
    ensures { (offset : ℕ)
        → properties_view properties.now
        ≡ mention_properties (offset + index) (home_view home.now) is_first
        → plain result ≡ mention offset again index (home_view home.now) is_first }
{
    let citation = &home.request.request.style().citation;
    Subject {
        mention: CiteMention {
            source: home.request.source(),
            entry: home.entry,
            properties,
        },
        entry: index,
        is_first,
        occurs: is_first || again,
        adds_names: citation.disambiguate_add_names,
        rule: given_name_rule(citation),
        adds_suffix: citation.disambiguate_add_year_suffix,
    }
}

/// The mentions of entries with these homes, in their order, the first one of an entry before the
/// later one. The properties are those of the mentions, and `again` are the entries that are cited
/// again, by their indices.
///
/// # Errors
///
/// Where memory is refused.
pub fn mentions<'t, 'r: 't, 'a: 't, 'p, T, P>(
    alloc: Global,
    homes: &[Home<'r, 'a, T, P>],
    again: &IndexSet<usize>,
    properties: &'t [CiteProperties<'p, P>],
) -> Result<Vec<Subject<CiteMention<'t, 'p, T, P>>>, AllocError>
    requires { length properties.now ≡ 2 * length homes.now }
    ensures { IfOk result (λ v. (offset : ℕ)
        → map properties_view properties.now ≡ all_properties offset (homes_view homes.now)
        → map plain v.items ≡ mentions_at offset (λ n. list_any (nat_eq n) again.now.keys)
        (homes_view homes.now)) }
{
    let mut mentions = Vec::with_capacity(alloc, properties.len())?;
    for (index, home) in homes.iter().enumerate() {
        let cited_again = is_among(again, index);
        let first = mention(home, index, cited_again, &properties[2 * index], true);
        mentions.push(first)?;
        let later = mention(home, index, cited_again, &properties[2 * index + 1], false);
        mentions.push(later)?;
    }
    Ok(mentions)
}

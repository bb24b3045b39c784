//! The items of a document, as the driver knows them.
use crate::cites::Citation;
use crate::error::AnswerError;
use crate::facts::first_cite;
use crate::kept::KeptTexts;
use crate::programs::BibliographyProgram;
use crate::setting::Setting;
use cite_kept::versions::Version;
use cite_limits::error::LimitError;
use cite_sorting::order::sorted_indexes;
use csl_base::entry::PlainEntry;
use csl_base::seq::Seq;
use csl_base::text::Text;
use reference_values::reference::{Reference, References};
use std::alloc::{AllocError, Global};
use std::collections::{BTreeMap, BTreeSet};

/// The items that are cited, in the order of the bibliography.
#[derive(Drop)]
pub struct Items<'d> {
    pub references: Vec<&'d Reference>,
    /// At the same places, what the driver knows of them.
    pub entries: Vec<PlainEntry>,
    /// At the same places, their versions (`KeptTexts`).
    versions: Vec<Version>,
    /// The places, by the ids.
    places: BTreeMap<String, usize>,
}

impl<'d> Items<'d> {
    /// These items in the order of the bibliography, in the versions of the texts that are kept.
    ///
    /// # Errors
    ///
    /// `Exceeded` where the keys take more than the budget has; `OutOfMemory`.
    pub fn in_order(
        alloc: Global,
        setting: Setting<'_>,
        cited: Vec<&'d Reference>,
        kept: &mut KeptTexts,
    ) -> Result<Items<'d>, LimitError> {
        let ordered = match setting.bibliography() {
            Some(bibliography) => in_order(alloc, setting, bibliography, cited)?,
            None => cited,
        };
        Ok(Items::of_references(alloc, ordered, kept)?)
    }

    fn of_references(
        alloc: Global,
        references: Vec<&'d Reference>,
        kept: &mut KeptTexts,
    ) -> Result<Items<'d>, AllocError> {
        let mut entries = Vec::new(alloc);
        let mut versions = Vec::new(alloc);
        let mut places = BTreeMap::new(alloc);
        for (place, reference) in references.iter().enumerate() {
            entries.push(entry_of(alloc, place)?)?;
            versions.push(kept.version(&reference.id)?)?;
            places.insert(reference.id.clone()?, place)?;
        }
        Ok(Items {
            references,
            entries,
            versions,
            places,
        })
    }

    /// The place of the item with this id.
    pub fn place(&self, id: &str) -> Option<usize> {
        self.places.get(id).copied()
    }

    /// The place of the item that the driver knows by this key.
    pub fn keyed_place(&self, key: &str) -> Option<usize> {
        key.parse::<usize>().ok()
    }

    /// The id of the item that the driver knows by this key.
    pub fn keyed_id(&self, key: &str) -> Option<&'d str> {
        let reference = self.reference(self.keyed_place(key)?)?;
        Some(reference.id.as_str())
    }

    /// The version of the item at this place.
    pub fn version(&self, place: usize) -> Option<Version> {
        self.versions.get(place).copied()
    }

    /// The item at this place.
    pub fn reference(&self, place: usize) -> Option<&'d Reference> {
        self.references.get(place).copied()
    }
}

/// The items that are cited, in the order of their first cites.
///
/// # Errors
///
/// `NoReference` where an item is cited that isn't there; `OutOfMemory`.
pub fn cited_references<'d>(
    alloc: Global,
    references: &'d References,
    citations: &[Citation],
) -> Result<Vec<&'d Reference>, AnswerError> {
    let mut seen = BTreeSet::new(alloc);
    let mut found = Vec::new(alloc);
    for (citation, cited) in citations.iter().enumerate() {
        for cite in &cited.cites {
            let id = cite.id.clone()?;
            let Some(reference) = references.get(cite.id.as_str()) else {
                return Err(AnswerError::NoReference { citation, id });
            };
            if seen.insert(id)? {
                found.push(reference)?;
            }
        }
    }
    Ok(found)
}

/// The items in the order of the bibliography.
fn in_order<'s, 'd>(
    alloc: Global,
    setting: Setting<'s>,
    bibliography: &'s BibliographyProgram<'s>,
    cited: Vec<&'d Reference>,
) -> Result<Vec<&'d Reference>, LimitError> {
    if bibliography.keys.is_empty() {
        return Ok(cited);
    }
    let mut cites = Vec::new(alloc);
    for (place, reference) in cited.iter().enumerate() {
        cites.push(first_cite(*reference, None, place.saturating_add(1)))?;
    }
    let scene = setting.item_keys(bibliography);
    let places = sorted_indexes(alloc, scene, bibliography.keys.as_slice(), cites.as_slice())?;
    let mut ordered = Vec::new(alloc);
    for place in places {
        if let Some(reference) = cited.get(place) {
            ordered.push(*reference)?;
        }
    }
    Ok(ordered)
}

/// What the driver knows of an item: the number of its place. Keys of anyone's choice could be made
/// to have one hash.
fn entry_of(alloc: Global, place: usize) -> Result<PlainEntry, AllocError> {
    let key = format!(in alloc; "{place}")?;
    Ok(PlainEntry {
        key: Text::copied(alloc, key.as_str())?,
        label: None,
        names: Seq::new(Vec::new(alloc)),
        dates: Seq::new(Vec::new(alloc)),
        texts: Seq::new(Vec::new(alloc)),
        numbers: Seq::new(Vec::new(alloc)),
    })
}

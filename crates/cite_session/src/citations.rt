//! The citations of a session.
use crate::library::Library;
use cite_inputs::error::CallError;
use cite_inputs::json::wrong_part;
use cite_inputs::texts::TextName;
use cite_json::listing::uncited;
use cite_json::reading::ReadCitations;
use cite_json::unknown::{KnownItems, with_missing};
use cite_tasks::cites::Citation;
use std::alloc::{AllocError, Global};
use std::collections::BTreeSet;

/// Citations with their keys.
#[derive(Drop)]
pub(crate) struct KeyedCitations {
    pub citations: Vec<Citation>,
    /// The key of each, at its place. They are distinct.
    pub keys: Vec<String>,
}

impl KeyedCitations {
    /// No citations.
    pub fn new(alloc: Global) -> KeyedCitations {
        KeyedCitations {
            citations: Vec::new(alloc),
            keys: Vec::new(alloc),
        }
    }

    /// The citations that were read. The key of one is its id, or else its place, from 0.
    ///
    /// # Errors
    ///
    /// `Fault` at a citation whose key another has before it; `OutOfMemory`.
    pub fn of_read(alloc: Global, read: ReadCitations) -> Result<KeyedCitations, CallError> {
        Ok(KeyedCitations {
            keys: keys_of(alloc, read.ids)?,
            citations: read.citations,
        })
    }

    /// The same citations as those of a draft: their cites of items that aren't there are missing
    /// ones; `sorts` says whether the style sorts cites.
    ///
    /// # Errors
    ///
    /// Where memory is refused.
    pub fn drafted(
        &self,
        alloc: Global,
        library: &Library,
        sorts: bool,
    ) -> Result<KeyedCitations, AllocError> {
        let mut keys = Vec::new(alloc);
        for key in &self.keys {
            keys.push(key.clone()?)?;
        }
        Ok(KeyedCitations {
            citations: with_missing(alloc, &self.citations, library, sorts)?,
            keys,
        })
    }

    /// Adds a citation of all other items, which isn't shown.
    ///
    /// # Errors
    ///
    /// Where memory is refused: none is added.
    pub fn push_uncited(&mut self, alloc: Global, library: &Library) -> Result<(), AllocError> {
        let uncited = uncited(alloc, library.references(), &self.citations)?;
        self.citations.push(known_cites(alloc, library, uncited)?)?;
        Ok(())
    }

    /// Leaves out the citations that have no key.
    pub fn leave_out_uncited(&mut self) {
        self.citations.truncate(self.keys.len());
    }
}

/// A citation with those of its cites whose items the library has.
fn known_cites(
    alloc: Global,
    library: &Library,
    citation: Citation,
) -> Result<Citation, AllocError> {
    let Citation {
        cites,
        missing_behind,
        note,
        is_alone,
        is_unsorted,
    } = citation;
    let mut known = Vec::new(alloc);
    for cite in cites {
        if library.has(cite.id.as_str()) {
            known.push(cite)?;
        }
    }
    Ok(Citation {
        cites: known,
        missing_behind,
        note,
        is_alone,
        is_unsorted,
    })
}

/// The keys of citations that have these ids.
fn keys_of(alloc: Global, ids: Vec<Option<String>>) -> Result<Vec<String>, CallError> {
    let mut seen = BTreeSet::new(alloc);
    let mut keys = Vec::new(alloc);
    for (place, id) in ids.into_iter().enumerate() {
        let is_own = id.is_some();
        let key = match id {
            Some(id) => id,
            None => format!(in alloc; "{place}")?,
        };
        if !seen.insert(key.clone()?)? {
            return Err(repeated_key(alloc, place, is_own, key.as_str()));
        }
        keys.push(key)?;
    }
    Ok(keys)
}

/// The error of a citation whose key another has; the key is its own id, or else its place.
fn repeated_key(alloc: Global, place: usize, is_own: bool, key: &str) -> CallError {
    let member = if is_own { "/citationID" } else { "" };
    let Ok(pointer) = format!(in alloc; "/{place}{member}") else {
        return CallError::OutOfMemory;
    };
    match format!(in alloc; "a citation before it has the key `{key}`") {
        Ok(why) => wrong_part(alloc, TextName::Citations, &pointer, &why),
        Err(_) => CallError::OutOfMemory,
    }
}

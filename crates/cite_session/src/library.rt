//! The items of a session.
use cite_json::unknown::KnownItems;
use reference_values::reference::{Reference, References};
use std::alloc::{AllocError, Global};
use std::collections::BTreeSet;
use style_file::item_type::ItemType;

/// Items by their ids, which are put and removed.
#[derive(Drop)]
pub(crate) struct Library {
    /// The items; among them, those that were removed keep their places, and have only their ids.
    references: References,
    /// The ids under which there is no item, whatever `references` has.
    removed: BTreeSet<String>,
}

impl Library {
    /// No items.
    pub fn new(alloc: Global) -> Library {
        Library {
            references: References::new(alloc),
            removed: BTreeSet::new(alloc),
        }
    }

    /// Adds items, whose ids these are. Each is new, or stands in place of the one with its id.
    ///
    /// # Errors
    ///
    /// Where memory is refused: no item is added.
    pub fn put(
        &mut self,
        alloc: Global,
        items: Vec<Reference>,
        ids: &[String],
    ) -> Result<(), AllocError> {
        self.hide_new(ids)?;
        let mut replaced = Vec::with_capacity(alloc, items.len())?;
        match self.replace_all(items, &mut replaced) {
            Ok(()) => {
                for id in ids {
                    self.removed.remove(id.as_str());
                }
                Ok(())
            }
            Err(error) => {
                self.put_back(replaced);
                Err(error)
            }
        }
    }

    /// Removes the items with these ids; other ids are ignored.
    ///
    /// # Errors
    ///
    /// Where memory is refused: no item is removed.
    pub fn remove(&mut self, alloc: Global, ids: &[String]) -> Result<(), AllocError> {
        let known = self.known(alloc, ids)?;
        match self.hide(&known) {
            Ok(()) => {
                self.empty(alloc, &known);
                Ok(())
            }
            Err(error) => {
                for id in &known {
                    self.removed.remove(id.as_str());
                }
                Err(error)
            }
        }
    }

    /// Of these ids, those under which there is an item.
    fn known<'i>(&self, alloc: Global, ids: &'i [String]) -> Result<Vec<&'i String>, AllocError> {
        let mut known = Vec::new(alloc);
        for id in ids {
            if self.has(id.as_str()) {
                known.push(id)?;
            }
        }
        Ok(known)
    }

    /// From now on there is no item under these ids.
    fn hide(&mut self, ids: &[&String]) -> Result<(), AllocError> {
        for id in ids {
            self.removed.insert((*id).clone()?)?;
        }
        Ok(())
    }

    /// Keeps that there is no item under those of the ids under which there is none yet.
    fn hide_new(&mut self, ids: &[String]) -> Result<(), AllocError> {
        for id in ids {
            if !self.has(id.as_str()) {
                self.removed.insert(id.clone()?)?;
            }
        }
        Ok(())
    }

    /// Items that were removed give back their memory. Where it is refused for what takes their
    /// places, they keep it.
    fn empty(&mut self, alloc: Global, ids: &[&String]) {
        for id in ids {
            if let Ok(id) = (*id).clone() {
                let _ = self.references.insert(empty_item(alloc, id));
            }
        }
    }

    /// Puts items in place of those with their ids, which come into `replaced`.
    fn replace_all(
        &mut self,
        items: Vec<Reference>,
        replaced: &mut Vec<Reference>,
    ) -> Result<(), AllocError> {
        for item in items {
            if let Some(old) = self.references.insert(item)? {
                if let Err(refused) = replaced.push(old) {
                    let _ = self.references.insert(refused.value);
                    return Err(AllocError);
                }
            }
        }
        Ok(())
    }

    /// Puts items back in their places, which takes no memory.
    fn put_back(&mut self, replaced: Vec<Reference>) {
        for item in replaced {
            let _ = self.references.insert(item);
        }
    }
}

impl KnownItems for Library {
    fn has(&self, id: &str) -> bool {
        self.references.contains(id) && !self.removed.contains(id)
    }

    fn references(&self) -> &References {
        &self.references
    }
}

/// An item that has only an id.
fn empty_item(alloc: Global, id: String) -> Reference {
    Reference {
        id,
        item_type: ItemType::Document,
        texts: Vec::new(alloc),
        numbers: Vec::new(alloc),
        dates: Vec::new(alloc),
        names: Vec::new(alloc),
    }
}

/// The ids of items.
///
/// # Errors
///
/// Where memory is refused.
pub(crate) fn ids_of(alloc: Global, items: &[Reference]) -> Result<Vec<String>, AllocError> {
    let mut ids = Vec::new(alloc);
    for item in items {
        ids.push(item.id.clone()?)?;
    }
    Ok(ids)
}

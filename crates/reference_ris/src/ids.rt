//! Ids of items.
use reference_items::item::{Item, MemberValue};
use std::alloc::{AllocError, Global};
use std::collections::BTreeMap;

/// The ids of a file.
#[derive(Drop)]
pub(crate) struct Ids {
    alloc: Global,
    /// How often each was made up.
    seen: BTreeMap<String, usize>,
}

impl Ids {
    pub(crate) fn new(alloc: Global) -> Ids {
        Ids {
            alloc,
            seen: BTreeMap::new(alloc),
        }
    }

    /// Notes an id. Returns whether it is the first one.
    pub(crate) fn add(&mut self, id: &str) -> Result<bool, AllocError> {
        if self.seen.contains_key(id) {
            return Ok(false);
        }
        self.seen.insert(String::from_str(self.alloc, id)?, 1)?;
        Ok(true)
    }

    /// An id for an item that has none: the name of its first author and its year, and a number
    /// where that isn't the first.
    pub(crate) fn make(&mut self, item: &Item) -> Result<String, AllocError> {
        let mut id = name_of(self.alloc, item)?;
        push_year(&mut id, item)?;
        if id.is_empty() {
            id.push_str("item")?;
        }
        if self.add(id.as_str())? {
            return Ok(id);
        }
        self.numbered(id.as_str())
    }

    /// The id with the next number that no other has.
    fn numbered(&mut self, id: &str) -> Result<String, AllocError> {
        let mut number = self.seen.get(id).copied().unwrap_or(1);
        for _ in 0..=self.seen.len() {
            number = number.saturating_add(1);
            let made = format!(in self.alloc; "{id}-{number}")?;
            if self.add(made.as_str())? {
                self.seen.insert(String::from_str(self.alloc, id)?, number)?;
                return Ok(made);
            }
        }
        String::from_str(self.alloc, id)
    }
}

/// The letters of the family name of the first author, or of an institution.
fn name_of(alloc: Global, item: &Item) -> Result<String, AllocError> {
    let mut letters = String::new(alloc);
    for member in &item.members {
        if let MemberValue::Names(names) = &member.value {
            if let Some(name) = names.first() {
                for c in name
                    .family
                    .as_str()
                    .chars()
                    .chain(name.literal.as_str().chars())
                {
                    if c.is_alphanumeric() {
                        letters.push(c)?;
                    }
                }
                return Ok(letters);
            }
        }
    }
    Ok(letters)
}

fn push_year(id: &mut String, item: &Item) -> Result<(), AllocError> {
    for member in &item.members {
        if let MemberValue::Date(date) = &member.value {
            if member.name == "issued" {
                if let Some(point) = date.points.first() {
                    write!(id, "{}", point.year)?;
                }
            }
        }
    }
    Ok(())
}

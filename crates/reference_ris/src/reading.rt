//! The items of a RIS file.
use crate::conversion::{Conversion, converted};
use crate::ids::Ids;
use crate::syntax::read_records;
use reference_items::item::Item;
use reference_items::reading::{Loss, ReadItems};
use std::alloc::{AllocError, Global};

/// The items of a RIS file, what isn't kept of its records, and what in it can't be read. Of records
/// of one `ID` the first counts. A record without one gets an id of the name of its first author
/// and its year.
///
/// # Errors
/// Where memory is refused.
pub fn read_ris(alloc: Global, text: &str) -> Result<ReadItems, AllocError> {
    let file = read_records(alloc, text)?;
    let mut items = Items {
        alloc,
        items: Vec::with_capacity(alloc, file.records.len())?,
        losses: Vec::new(alloc),
        ids: Ids::new(alloc),
    };
    for record in &file.records {
        let conversion = converted(alloc, record)?;
        items.keep(conversion)?;
    }
    Ok(ReadItems {
        items: items.items,
        losses: items.losses,
        faults: file.faults,
    })
}

/// The items that are read.
#[derive(Drop)]
struct Items {
    alloc: Global,
    items: Vec<Item>,
    losses: Vec<Loss>,
    ids: Ids,
}

impl Items {
    /// Keeps an item, and what isn't kept of its record.
    fn keep(&mut self, conversion: Conversion) -> Result<(), AllocError> {
        let mut item = conversion.item;
        if item.id.is_empty() {
            item.id = self.ids.make(&item)?;
        } else if !self.ids.add(item.id.as_str())? {
            return self.lose(item.id.as_str(), "ID", "a second item of this id, left out");
        }
        for lost in &conversion.lost {
            self.lose(item.id.as_str(), lost.tag.as_str(), lost.reason.as_str())?;
        }
        self.items.push(item)?;
        Ok(())
    }

    fn lose(&mut self, entry: &str, field: &str, reason: &str) -> Result<(), AllocError> {
        self.losses.push(Loss {
            entry: String::from_str(self.alloc, entry)?,
            field: String::from_str(self.alloc, field)?,
            reason: String::from_str(self.alloc, reason)?,
        })?;
        Ok(())
    }
}

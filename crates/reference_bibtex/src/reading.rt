//! The items of a .bib file.
use crate::conversion::conversion_of;
use crate::entry::BibEntry;
use crate::inheritance::{Keys, whole_of};
use crate::syntax::read_entries;
use reference_items::item::Item;
use reference_items::reading::{Loss, ReadItems};
use std::alloc::{AllocError, Global};
use std::collections::BTreeMap;

/// Which of the two a file is.
#[derive(Clone, Copy, PartialEq, Eq)]
pub enum BibForm {
    BibTex,
    BibLatex,
}

/// The items of a .bib file, what isn't kept of its entries, and what in it can't be read. Of
/// entries of one key the first counts. `language` is the tag of the language of entries that say
/// none: English titles are put into sentence case, which CSL asks for.
///
/// # Errors
/// Where memory is refused.
pub fn read_bibtex(
    alloc: Global,
    text: &str,
    form: BibForm,
    language: &str,
) -> Result<ReadItems, AllocError> {
    let file = read_entries(alloc, text.strip_prefix('\u{feff}').unwrap_or(text))?;
    let mut items = Items {
        alloc,
        items: Vec::new(alloc),
        losses: Vec::new(alloc),
        seen: BTreeMap::new(alloc),
        is_biblatex: form == BibForm::BibLatex,
    };
    let keys = Keys::of(alloc, &file.entries)?;
    for entry in &file.entries {
        items.read(&file.entries, &keys, entry, language)?;
    }
    Ok(ReadItems {
        items: items.items,
        losses: items.losses,
        faults: file.faults,
    })
}

/// The items that are read.
#[derive(Drop)]
struct Items {
    alloc: Global,
    items: Vec<Item>,
    losses: Vec<Loss>,
    /// The keys of the entries.
    seen: BTreeMap<String, ()>,
    is_biblatex: bool,
}

impl Items {
    /// Reads an entry.
    fn read<'e>(
        &mut self,
        entries: &'e [BibEntry],
        keys: &Keys,
        entry: &'e BibEntry,
        language: &str,
    ) -> Result<(), AllocError> {
        match entry.kind.as_str() {
            "xdata" => return Ok(()),
            "set" | "bibnote" => return self.lose(entry, "type", "no work of its own, left out"),
            _ => {}
        }
        if self.seen.contains_key(entry.key.as_str()) {
            return self.lose(entry, "id", "a second item of this id, left out");
        }
        self.seen.insert(entry.key.clone()?, ())?;
        let whole = whole_of(self.alloc, entries, keys, entry, self.is_biblatex)?;
        let mut conversion = conversion_of(self.alloc, whole, self.is_biblatex, language)?;
        conversion.convert()?;
        for loss in conversion.losses {
            self.losses.push(loss)?;
        }
        self.items.push(conversion.item)?;
        Ok(())
    }

    fn lose(&mut self, entry: &BibEntry, field: &str, reason: &str) -> Result<(), AllocError> {
        self.losses.push(Loss {
            entry: entry.key.clone()?,
            field: String::from_str(self.alloc, field)?,
            reason: String::from_str(self.alloc, reason)?,
        })?;
        Ok(())
    }
}

//! What was written, kept for cites and for answers to come.
use crate::plain_cites::PlainCite;
use cite_kept::kept::Kept;
use cite_kept::versions::Version;
use cite_limits::budget::Budget;
use cite_limits::cost::Cost;
use cite_limits::error::{LimitError, StylePlace};
use cite_trees::trees::shown_of;
use driver_writers::cite::Cite;
use host_memo::table::copied;
use std::alloc::{AllocError, Global};
use std::mem::replace;

/// What was written of cites and of items, for answers in one style, in the words of one language,
/// with the same short forms and limits.
///
/// A text has no place in a document: it is found by all that it depends on, the version of its
/// item among this. What two answers in a row didn't ask for is dropped.
#[derive(Drop)]
pub struct KeptTexts {
    texts: Kept<TextState, KnownCite>,
    /// Whether the items of bibliographies are kept too.
    keeps_items: bool,
}

/// All that a text depends on, with the version of its item.
pub(crate) type TextKey = (Version, TextState);

/// All that a text depends on beside its item.
#[derive(PartialEq, Eq, PartialOrd, Ord, Drop)]
pub(crate) enum TextState {
    /// That of a plain cite that is compared.
    Compared(PlainCite),
    /// That of a plain cite that is shown.
    Shown(PlainCite),
    /// That of an item in the bibliography.
    Listed(ListedState),
}

/// All that the text of an item in the bibliography depends on beside the item.
#[derive(Clone, Copy, PartialEq, Eq, PartialOrd, Ord)]
pub(crate) struct ListedState {
    /// Its number, as it is printed, where the bibliography has it.
    pub number: Option<usize>,
    pub disambiguates: bool,
    pub year_suffix: Option<usize>,
}

impl KeptTexts {
    /// Nothing yet; for answers that follow one another.
    pub fn new(alloc: Global) -> KeptTexts {
        KeptTexts::keeping(alloc, true)
    }

    /// Nothing yet; for one answer alone, which asks for each item once.
    pub fn of_one_answer(alloc: Global) -> KeptTexts {
        KeptTexts::keeping(alloc, false)
    }

    fn keeping(alloc: Global, keeps_items: bool) -> KeptTexts {
        KeptTexts {
            texts: Kept::new(alloc),
            keeps_items,
        }
    }

    /// The item with this id has changed or is gone: what was written of it isn't used again.
    pub fn forget(&mut self, id: &str) {
        self.texts.forget(id);
    }

    /// The version of the item with this id.
    pub(crate) fn version(&mut self, id: &String) -> Result<Version, AllocError> {
        self.texts.version(id)
    }

    /// All that is here; nothing is left.
    pub fn taken(&mut self, alloc: Global) -> KeptTexts {
        let keeps_items = self.keeps_items;
        replace(self, KeptTexts::keeping(alloc, keeps_items))
    }

    /// Another answer begins.
    pub fn begin_answer(&mut self) {
        self.texts.begin_answer();
    }

    /// Whether the items of bibliographies are kept.
    pub(crate) fn keeps_items(&self) -> bool {
        self.keeps_items
    }

    /// What was written by this.
    pub(crate) fn get(&mut self, key: &TextKey) -> Option<&KnownCite> {
        self.texts.ask(key);
        self.texts.get(key)
    }

    /// Keeps what was written by this, and gives a copy of it.
    pub(crate) fn keep(&mut self, key: TextKey, known: KnownCite) -> Result<Cite, AllocError> {
        let cite = copied(&known.cite)?;
        self.texts.keep(key, known)?;
        Ok(cite)
    }
}

impl TextState {
    /// That of the same cite where it is compared.
    pub fn compared(self) -> TextState {
        match self {
            TextState::Shown(plain) => TextState::Compared(plain),
            other => other,
        }
    }

    /// That of the same cite where it is shown.
    pub fn shown(self) -> TextState {
        match self {
            TextState::Compared(plain) => TextState::Shown(plain),
            other => other,
        }
    }
}

/// A cite that was written, and what it took. A copy of it takes as much.
#[derive(Drop)]
pub(crate) struct KnownCite {
    pub cite: Cite,
    pub cost: Cost,
}

impl KnownCite {
    /// A cite that was written at this cost.
    pub fn new(cite: Cite, cost: Cost) -> KnownCite {
        KnownCite { cite, cost }
    }

    /// The same cite once more, at this place of the style.
    ///
    /// # Errors
    ///
    /// `Exceeded` where the budget has less left than it takes; `OutOfMemory`.
    pub fn copied(&self, budget: &Budget, place: StylePlace) -> Result<Cite, LimitError> {
        budget.spend(self.cost, place)?;
        Ok(copied(&self.cite)?)
    }

    /// What of it is shown.
    ///
    /// # Errors
    ///
    /// Those of `copied`.
    pub fn shown(&self, alloc: Global, budget: &Budget) -> Result<KnownCite, LimitError> {
        budget.spend(self.cost, StylePlace::Citation)?;
        let cite = Cite {
            children: shown_of(alloc, &self.cite.children)?,
            checked_disambiguate: self.cite.checked_disambiguate,
            first_name: None,
            identifier_usage: self.cite.identifier_usage,
        };
        Ok(KnownCite::new(cite, self.cost))
    }
}

//! Citations, as a document has them.
use cite_walk::cite::CiteLocator;
use driver_lookup::apart::Apart;

/// A cite.
#[derive(Drop)]
pub struct Cite {
    /// The id of its item.
    pub id: String,
    /// Its place in the citation, from 0, where cites whose items aren't there have places too.
    pub place: usize,
    pub locator: Option<CiteLocator>,
    /// What stands before it, with markup.
    pub prefix: String,
    /// What follows it, with markup.
    pub suffix: String,
    pub suppresses_author: bool,
    /// Whether only its author is written.
    pub is_author_only: bool,
    /// Whether it isn't shown; its item is listed all the same.
    pub is_hidden: bool,
    /// The cites directly before it whose items aren't there.
    pub missing_before: Vec<MissingCite>,
}

/// A cite whose item isn't there. The id stands for it, in bold letters and with a question mark.
#[derive(Drop)]
pub struct MissingCite {
    pub id: String,
    /// What stands before it, with markup.
    pub prefix: String,
    /// What follows it, with markup.
    pub suffix: String,
    pub is_author_only: bool,
    pub is_hidden: bool,
}

/// A citation: the cites of one place.
#[derive(Drop)]
pub struct Citation {
    pub cites: Vec<Cite>,
    /// The cites that follow all others, and whose items aren't there.
    pub missing_behind: Vec<MissingCite>,
    /// The number of the note in which it stands; without one, each citation has a note of its own.
    pub note: Option<usize>,
    /// Whether nothing else stands in its note, so that its words begin the note.
    pub is_alone: bool,
    /// Whether its cites keep their order in every style.
    pub is_unsorted: bool,
}

impl Citation {
    /// Whether its cites keep their order: where the document says so, and where words of its own
    /// lead to a cite behind the first.
    pub fn keeps_order(&self) -> bool {
        self.is_unsorted || self.cites.iter().skip(1).any(has_words_before)
    }

    /// Whether a cite of it is of the author alone.
    pub fn has_author_alone(&self) -> bool {
        self.cites.iter().any(|cite| cite.is_author_only
            || has_missing_author(&cite.missing_before))
            || has_missing_author(&self.missing_behind)
    }

    /// Whether it cites items that aren't there.
    pub fn has_missing(&self) -> bool {
        !self.missing_behind.is_empty()
            || self
                .cites
                .iter()
                .any(|cite| !cite.missing_before.is_empty())
    }
}

fn has_missing_author(missing: &[MissingCite]) -> bool {
    missing.iter().any(|cite| cite.is_author_only)
}

/// Whether something of missing cites is shown.
fn shows(missing: &[MissingCite]) -> bool {
    missing.iter().any(|cite| !cite.is_hidden)
}

fn has_words_before(cite: &Cite) -> bool {
    !cite.is_hidden && !cite.prefix.as_str().trim().is_empty()
}

impl Cite {
    /// Where the cite stands apart from others, if it does: it has words of its own around it,
    /// something is missing before it, or only a part of it is written.
    pub fn apart(&self) -> Option<Apart> {
        if !self.suffix.is_empty() || self.suppresses_author || self.is_author_only {
            Some(Apart::Both)
        } else if !self.prefix.is_empty() || shows(&self.missing_before) {
            Some(Apart::Before)
        } else {
            None
        }
    }
}

//! Mentions of entries.
use value_lists::text::Text;

/// A mention of an entry: as its first cite reads, or as a later one.
#[derive(Drop)]
pub struct Mention {
    /// The index of the entry in the order of the bibliography.
    pub entry: usize,
    /// Whether it is the first mention of its entry; else it is the later one.
    pub is_first: bool,
    /// Whether some cite is of this kind; others needn't differ from a mention that doesn't occur.
    pub occurs: bool,
    /// The plain text that was written; empty where nothing was written yet.
    pub text: Text,
    /// Whether its style adds year suffixes.
    pub adds_suffix: bool,
}

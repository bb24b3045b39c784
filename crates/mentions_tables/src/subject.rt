//! Mentions that are to be written.
use value_styles::style::DisambiguationRule;

/// A mention that is to be written, with what its style may do.
#[derive(Drop)]
pub struct Subject<M> {
    /// What the writer is asked for.
    pub mention: M,
    /// The index of its entry in the order of the bibliography.
    pub entry: usize,
    /// Whether it is the first mention of its entry; else it is the later one.
    pub is_first: bool,
    /// Whether some cite is of this kind; others needn't differ from a mention that doesn't occur.
    pub occurs: bool,
    /// Whether its style adds names.
    pub adds_names: bool,
    /// The rule by which its style adds given names, if it does.
    pub rule: Option<DisambiguationRule>,
    /// Whether its style adds year suffixes.
    pub adds_suffix: bool,
}

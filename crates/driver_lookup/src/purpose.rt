//! What a cite is written for.

/// How a cite is written, where that isn't the style's usual way.
#[derive(Clone, Copy, PartialEq, Eq, PartialOrd, Ord, Hash)]
pub enum CitePurpose {
    /// The author alone.
    Author,
    /// The year alone.
    Year,
    /// As in the bibliography.
    Full,
    /// As part of a sentence: the author, then the rest of the cite in parentheses.
    Prose,
}

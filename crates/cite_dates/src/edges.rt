//! What becomes of the affixes at the two ends of some parts of a date.

/// What becomes of an affix.
#[derive(Clone, Copy)]
pub(crate) enum Edge {
    Kept,
    /// It loses the white space at its outer side.
    Trimmed,
    Dropped,
}

/// The two ends of some parts, and what follows the year in them.
#[derive(Clone, Copy)]
pub(crate) struct Ends<'o> {
    pub first: Edge,
    pub last: Edge,
    pub year_suffix: Option<&'o str>,
}

impl Ends<'_> {
    /// With this first end.
    pub fn with_first(self, first: Edge) -> Self {
        Ends { first, ..self }
    }

    /// With this last end.
    pub fn with_last(self, last: Edge) -> Self {
        Ends { last, ..self }
    }

    /// Those of one of the parts: what stands around it within the parts is kept.
    pub fn of_part(self, is_first: bool, is_last: bool) -> Self {
        Ends {
            first: if is_first { self.first } else { Edge::Kept },
            last: if is_last { self.last } else { Edge::Kept },
            ..self
        }
    }

    /// With nothing behind the year.
    pub fn without_suffix(self) -> Self {
        Ends {
            year_suffix: None,
            ..self
        }
    }
}

impl Edge {
    /// What is left of the prefix of the first part.
    pub fn prefix(self, prefix: &str) -> &str {
        match self {
            Edge::Kept => prefix,
            Edge::Trimmed => prefix.trim_start(),
            Edge::Dropped => "",
        }
    }

    /// What is left of the suffix of the last part.
    pub fn suffix(self, suffix: &str) -> &str {
        match self {
            Edge::Kept => suffix,
            Edge::Trimmed => suffix.trim_end(),
            Edge::Dropped => "",
        }
    }
}

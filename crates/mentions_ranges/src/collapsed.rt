//! What collapsing makes of a cite.

/// What stands before a cite.
#[derive(Clone, Copy)]
pub enum Delimiter {
    /// What stands there without collapsing.
    Usual,
    /// The after-collapse delimiter.
    AfterCollapse,
    /// The year-suffix delimiter.
    YearSuffix,
    /// An en dash.
    Dash,
}

/// What collapsing makes of a cite.
#[derive(Clone, Copy)]
pub struct CollapsedCite {
    /// Whether it is inside a range, and so isn't shown.
    pub is_inner: bool,
    /// Whether only the suffix of its year is shown.
    pub is_cut: bool,
    /// What stands before it.
    pub delimiter: Delimiter,
}

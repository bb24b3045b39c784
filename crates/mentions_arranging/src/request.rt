//! Requests whose cites are arranged.
use driver_lookup::apart::Apart;
use mentions_blocks::blocks::PlacedCite;
use mentions_ranges::suffixes::Suffix;
use value_styles::style::Collapse;

/// What a style says of how cites are grouped and collapse.
#[derive(Clone, Copy)]
pub struct CiteStyle {
    /// Whether it names a cite group delimiter.
    pub has_group_delimiter: bool,
    pub collapse: Option<Collapse>,
    /// Whether it names an after-collapse delimiter.
    pub has_after_collapse_delimiter: bool,
}

/// What is known of a request, beside its cites.
#[derive(Clone, Copy)]
pub struct RequestFacts {
    pub style: CiteStyle,
    /// The number of its note; none where it stands in none, or its style is of class in-text.
    pub note: Option<usize>,
    /// Whether some cite of it has a purpose. Then none of them collapses.
    pub has_purpose: bool,
}

/// A request, with its cites in the order in which they were handed in, or in their final order.
#[derive(Drop)]
pub struct CiteRequest<C> {
    pub facts: RequestFacts,
    pub cites: Vec<C>,
}

/// What a cite shows, before it is cut.
#[derive(Clone, Copy)]
pub struct Shown {
    /// Its names: a number that is the same for equal ones; none where it shows none.
    pub names: Option<usize>,
    /// What it reads as: a number that is the same for equal texts; none where it has no text.
    pub text: Option<usize>,
    /// Whether it shows the number of its entry.
    pub has_number: bool,
    /// Whether it shows a date.
    pub has_date: bool,
}

/// A cite as it is asked for, and what its mention shows.
#[derive(Clone, Copy)]
pub struct RequestedCite<L> {
    /// The index of its entry.
    pub entry: usize,
    /// Whether no cite before it cites its entry, in the order in which cites are handed in.
    pub is_first: bool,
    /// Its locator, if it has one.
    pub locator: Option<L>,
    /// Whether its caller hides it.
    pub hidden: bool,
    /// Words of its caller's around it.
    pub apart: Option<Apart>,
    /// The names by which it is brought together with others: a number that is the same for equal
    /// ones; none where it has none.
    pub key: Option<usize>,
    /// What its mention shows.
    pub shown: Shown,
    /// The suffix of its entry, if it has one.
    pub suffix: Option<Suffix>,
}

/// A cite in the final order of its request.
#[derive(Clone, Copy)]
pub struct FinalCite<L> {
    pub placed: PlacedCite,
    pub cite: RequestedCite<L>,
}

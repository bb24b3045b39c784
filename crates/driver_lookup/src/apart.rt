//! Words of a caller's around a cite.

/// Where a caller's own words stand around a cite, by which it stands apart from others. No cite is
/// brought together with others across them.
#[derive(Clone, Copy, PartialEq, Eq, Hash)]
pub enum Apart {
    /// Words stand before it alone.
    Before,
    /// Words follow it, or its author is left out.
    Both,
}

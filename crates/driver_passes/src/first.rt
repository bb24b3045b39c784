//! What is known of a cite when it is rendered first.
use driver_lookup::properties::CertainCiteProperties;
use driver_lookup::state::IbidState;

/// What is known of a cite when it is rendered first, beside its entry: its place among the cites
/// of the document, as they were handed in.
#[derive(Clone, Copy, PartialEq, Eq)]
pub struct FirstProperties {
    pub certain: CertainCiteProperties,
    /// The number of the entry, from the offset on.
    pub number: usize,
    /// Whether the cite repeats the one before it in the document.
    pub ibid: IbidState,
}

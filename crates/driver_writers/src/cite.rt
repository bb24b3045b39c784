//! What a cite is rendered to.
use csl_base::elem::ElemChildren;
use csl_base::names::NameDisambiguationProperties;
use driver_lookup::state::IdentifierUsage;

/// A rendered cite, and what was found out on the way.
#[derive(Drop)]
pub struct Cite {
    /// What is written.
    pub children: ElemChildren,
    /// Whether a condition `disambiguate` was tested.
    pub checked_disambiguate: bool,
    /// In which forms the names are written that stand first; none where no names are written.
    pub first_name: Option<NameDisambiguationProperties>,
    /// Which identifiers of its entry the cite has written by now.
    pub identifier_usage: IdentifierUsage,
}

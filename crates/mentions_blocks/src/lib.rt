//! Cites of a request that have the same names stand together, and show their names once (CSL
//! 1.0.2, cite grouping and cite collapsing), where works are disambiguated as CSL 1.0.2 has it.
#![tactic(auto)]

pub mod blocks;
pub mod collapsed;
pub mod parts;
pub mod years;

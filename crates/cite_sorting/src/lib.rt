//! Sorting (CSL 1.0.2, "Sorting"): keys, and cites in the order of their values, by one key after
//! the other.
#![tactic(auto)]

pub mod keys;
pub mod order;
pub mod ties;

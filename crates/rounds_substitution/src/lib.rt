//! Subsequent-author substitution: in a bibliography, what stands in place of names that an item
//! shares with one before it (CSL 1.0.2, reference grouping).
#![tactic(auto)]

mod changes;
pub mod laws;
mod names;
mod rewriting;
pub mod substitution;

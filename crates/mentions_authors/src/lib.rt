//! Repeated authors of a bibliography, where works are disambiguated as CSL 1.0.2 has it: which
//! names of an item a text stands for, and the items with that text (CSL 1.0.2, reference
//! grouping).
#![tactic(auto)]

mod names;
pub mod repeated;
mod rewriting;
pub mod substitution;

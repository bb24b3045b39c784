//! Collapsing without names, where works are disambiguated as CSL 1.0.2 has it (CSL 1.0.2, cite
//! collapsing): ranges of citation numbers, years that show their suffixes only, and what a caller
//! may rely on of them, whatever cites there are.
#![tactic(auto)]

mod around;
pub mod collapsed;
pub mod laws;
pub mod numbers;
pub mod suffixes;

//! Mentions of entries, which are compared where works are disambiguated as CSL 1.0.2 has it
//! (disambiguation, cite grouping): the groups that read alike, what disambiguates them besides
//! names, and what is shown of a mention.
#![tactic(auto)]

mod classes;
mod counted;
pub mod groups;
pub mod mention;
mod readings;
pub mod shown;
pub mod state;
pub mod suffixes;
pub mod written;

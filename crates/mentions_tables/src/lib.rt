//! What disambiguates the mentions of all entries as CSL 1.0.2 has it, and what a writer is asked
//! for on the way: names, the condition `disambiguate` and year suffixes, each once (CSL 1.0.2,
//! disambiguation).
#![tactic(auto)]

mod changed;
mod chosen;
mod firsts;
mod named;
pub mod subject;
pub mod tables;
pub mod writer;

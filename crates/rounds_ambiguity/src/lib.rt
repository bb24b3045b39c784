//! Cites that read alike though they cite different entries, and what disambiguates them besides
//! names: the test of `disambiguate`, and suffixes of the year (CSL 1.0.2, disambiguation).
#![tactic(auto)]

pub mod ambiguity;
pub mod choose;
mod classes;
mod first_cites;
pub mod laws;
mod members;
pub mod suffixes;

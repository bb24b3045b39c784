//! What the rounds are in which cites that read alike are disambiguated, and laws of every run of
//! them.
#![tactic(auto)]

pub mod laws;
pub mod mode;

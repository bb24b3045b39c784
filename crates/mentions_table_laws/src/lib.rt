//! Laws of what disambiguates mentions: what a caller may rely on of the states of all mentions and
//! the year suffixes of all entries, whatever a writer writes.
#![tactic(auto)]

pub mod laws;

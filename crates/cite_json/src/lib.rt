//! Citations read from JSON, as a list of lists of cites; and abbreviations.
#![tactic(auto)]

pub mod abbreviations;
pub mod fault;
pub mod listing;
pub mod notes;
mod oddities;
pub mod reading;
pub mod unknown;
pub mod warning;

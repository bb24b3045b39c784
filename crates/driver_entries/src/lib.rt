//! The entries that requests cite, each once, and the order and the numbers that they get.
#![tactic(auto)]

pub mod laws;
pub mod listing;
pub mod table;

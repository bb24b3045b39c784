//! Mentions of entries that read alike are disambiguated by their names (CSL 1.0.2, disambiguation,
//! steps 1 and 2).
#![tactic(auto)]

mod document;
mod forms;
mod gathered;
pub mod look;
pub mod mention;
pub mod reach;
mod rivals;
pub mod told;
mod ways;

//! Names as cites write them (CSL 1.0.2, "Names" and "Name").
#![tactic(auto)]

pub mod forms;
pub mod list;
pub mod others;
pub mod parts;
pub mod person;
pub mod rules;
pub mod scripts;
pub mod shown;

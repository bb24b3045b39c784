//! RIS as items of CSL-JSON.
#![tactic(auto)]

mod conversion;
mod dates;
mod ids;
pub mod reading;
pub mod syntax;
mod tables;

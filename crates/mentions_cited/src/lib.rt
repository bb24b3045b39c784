//! The mentions of the entries that requests cite, how they are written as cites, and what is kept
//! of each that was written.
#![tactic(auto)]

mod asking;
pub mod handed;
pub mod home;
pub mod homes;
pub mod kept;
pub mod means;
pub mod mention;
pub mod mentions;
pub mod properties;
pub mod repeated;

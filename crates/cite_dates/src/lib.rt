//! Dates as a style writes them (CSL 1.0.2, Date, Date-part, Localized Dates).
#![tactic(auto)]

mod edges;
pub mod layout;
pub mod sorting;
mod span;
mod text;
pub mod write;

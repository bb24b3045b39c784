//! What is looked up for a cite: its small values, and the terms of a style's locales.
#![tactic(auto)]

pub mod apart;
pub mod brackets;
pub mod laws;
pub mod locator;
pub mod lookup;
pub mod means;
mod prepared;
pub mod properties;
pub mod purpose;
pub mod state;
pub mod year;

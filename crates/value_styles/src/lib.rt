//! Values of styles and locales, and the check for macros that call each other in a ring.
#![tactic(auto)]

pub mod calls;
pub mod element;
mod graph;
pub mod laws;
pub mod locale;
mod order;
pub mod ring;
pub mod style;

//! Styles and locales, read from a JSON value.
#![tactic(auto)]

pub mod elements;
pub mod locales;
mod options;
pub mod styles;

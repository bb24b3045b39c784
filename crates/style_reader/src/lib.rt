//! Reads styles and locales of CSL 1.0.2 from their files.
#![tactic(auto)]

mod choose;
mod date;
mod element;
pub mod file;
mod formatting;
mod info;
mod locale;
mod names;
mod sections;
mod style;
mod text;

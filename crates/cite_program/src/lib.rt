//! The elements of a layout as a flat program: macros are written out, and choices and substitutes
//! are steps that lead on. So a writer goes through it once, and never back.
#![tactic(auto)]

pub mod build;
pub mod program;

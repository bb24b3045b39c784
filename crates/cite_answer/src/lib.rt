//! Answers in a style file as JSON, whose trees are those of the driver's answers.
#![tactic(auto)]

pub mod printing;
mod rendered;

//! Answers as JSON: all that an answer holds, so that a reader can build it again.
//!
//! The objects have the names of the trees' own fields. What is absent has no key.
#![tactic(auto)]

mod answers;
pub mod laws;
mod metas;
mod numbers;
pub mod printing;
mod strings;
mod trees;

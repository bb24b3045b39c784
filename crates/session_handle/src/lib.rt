//! Sessions for callers in C: one that is held by a pointer, and what it has to hand out.
#![tactic(auto)]

pub mod asking;
pub mod error;
pub mod handle;
pub mod held;
mod loose;

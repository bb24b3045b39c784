//! What is kept of what was written, until what it was written of has changed.
#![tactic(auto)]

pub mod kept;
pub mod versions;

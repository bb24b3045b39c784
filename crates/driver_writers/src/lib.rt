//! Who writes cites: what a driver asks of a writer, and what it may rely on.
#![tactic(auto)]

pub mod asking;
pub mod cite;
pub mod counter;
pub mod pushed;
pub mod task;
pub mod writer;

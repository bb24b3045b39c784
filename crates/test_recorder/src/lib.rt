//! What the layouts of styles write, in a table: for tests that answer from it.
#![tactic(auto)]

pub mod recorder;

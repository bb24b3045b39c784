//! Reads what a host has written, and writes what it is asked for.
#![tactic(auto)]

mod known;
mod metas;
pub mod printing;
mod task_names;
pub mod tasks;
pub mod trees;
mod wholes;
pub mod written;

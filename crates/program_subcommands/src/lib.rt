//! Citations and lists are written and explained as the words of the command line say, and the styles
//! that are built in are printed.
#![tactic(auto)]

pub mod citations;
pub mod commands;
mod explaining;
pub mod packaged;

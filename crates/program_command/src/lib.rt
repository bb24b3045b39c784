//! The command line of the program `gamhilon`: from its words to the command that they ask for.
#![tactic(auto)]

pub mod arguments;
mod command_line;
pub mod error;
pub mod one_line;
pub mod parsing;
mod usage;

//! Where in a text something is wrong or odd, for the calls and for the program.
#![tactic(auto)]

pub mod place;

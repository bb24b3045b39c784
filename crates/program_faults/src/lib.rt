//! What is wrong or odd in a file that the program reads, with its place: each fault of a style file
//! or a locale file with its line of the file, and why a text is no JSON, and at which place of it.
#![tactic(auto)]

pub mod faults;
pub mod finding;
pub mod syntax;

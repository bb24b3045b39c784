//! Documents of the program, read from a JSON value: entries, and what is asked of them.
#![tactic(auto)]

pub mod document;
pub mod entries;
pub mod finders;
pub mod found;
pub mod persons;
pub mod requests;
pub mod rounds;

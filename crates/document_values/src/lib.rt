//! Words for reading documents: the names of the format, and the parts of a JSON value.
#![tactic(auto)]

pub mod error;
pub mod fault;
pub mod names;
pub mod refusals;
pub mod tables;
pub mod texts;
pub mod words;

//! Trees of what is written: the elements and texts of a citation.
//!
//! Contracts see a tree as the list of its children.
#![tactic(auto)]

pub mod elem;
pub mod equality;
pub mod find;
pub mod first_names;
pub mod last_text;
pub mod print;
pub mod simplify;

//! Texts, lists and stacks of the citation driver.
//!
//! Contracts see plain data: a text is its list of bytes, a list is its items. No capacity and no
//! address shows.
#![tactic(auto)]

pub mod seq;
pub mod stack;
pub mod text;

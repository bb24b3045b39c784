//! Items of CSL-JSON as readers of other formats make them, and what was lost on the way.
#![tactic(auto)]

pub mod item;
pub mod json;
pub mod reading;

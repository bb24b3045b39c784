//! The context in which a cite is written: frames, formats, quotes and punctuation.
#![tactic(auto)]

pub mod context;
mod flat;
mod pile;
pub mod spare_memory;
mod text;
pub mod token;
mod tree_end;
pub mod wording;
pub mod writing;

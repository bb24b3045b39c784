//! What a layout picks for a cite: one flat list of pieces.
#![tactic(auto)]

mod choices;
pub mod held;
pub mod input;
mod name_blocks;
mod name_pieces;
mod name_rules;
mod name_text;
pub mod names;
pub mod notes;
pub mod picking;
pub mod pieces;
mod quiet;
mod variables;

//! What a writer of citations writes before it becomes a tree or a text: a flat stream of pieces.
//!
//! Elements of a style are written into an [`output::Output`], with their affixes and delimiters.
//! What comes of it is a stream of [`pieces::Pieces`], whose punctuation [`punctuation`] puts in
//! order, and which [`plain`] prints.
#![tactic(auto)]

mod cases;
pub mod formatting;
pub mod marked;
pub mod output;
pub mod piece;
pub mod pieces;
pub mod plain;
pub mod punctuation;
mod rich;

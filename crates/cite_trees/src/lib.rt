//! Streams of pieces as trees of the driver, and trees as streams.
//!
//! In a tree an element without a meta and without a display stands for quotes: which marks it gets
//! is decided only where all that stands around it is known.
#![tactic(auto)]

mod others;
pub mod shown;
pub mod streams;
pub mod trees;

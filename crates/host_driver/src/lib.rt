//! Drivers over what a host writes: over a table of what it has written before, with the answer or
//! what is missing; and over a source, code that needs no specification. It is asked once for each
//! thing, and the answer is the specified one with what it wrote.
#![tactic(auto)]

pub mod drive;
pub mod filling;
pub mod table;

//! Texts as a writer of citations makes them: cases, page ranges, numbers, initials of names.
#![tactic(auto)]

pub mod addresses;
pub mod cases;
pub mod initials;
pub mod lines;
pub mod numbers;
pub mod pages;
pub mod quotes;
mod words;

//! How the cites of requests are arranged, where works are disambiguated as CSL 1.0.2 has it: their
//! final order, which of them repeat others, and how they collapse (CSL 1.0.2, cite grouping, cite
//! collapsing and position).
#![tactic(auto)]

pub mod arranged;
pub mod order;
pub mod positioned;
mod ranges;
pub mod repeating;
pub mod request;
mod years;

//! Sessions by lines: one JSON object a line in, and one a line out.
#![tactic(auto)]

pub mod lines;
mod member;
mod opening;

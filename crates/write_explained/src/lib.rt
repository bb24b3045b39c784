//! Answers whose texts say which element of the style wrote them, as JSON and as a page.
#![tactic(auto)]

pub mod explained;
mod html;
pub mod json;
mod lines;
pub mod origins;
pub mod page;
mod sheet;
mod source;
mod strings;

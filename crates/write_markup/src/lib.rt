//! Trees in languages of markup: Markdown, as CommonMark and pandoc read it, and LaTeX, for a
//! document that loads hyperref.
//!
//! A tree is a list of [`runs`]. Each is written with a look at the letters beside it.
#![tactic(auto)]

mod addresses;
pub mod items;
pub mod latex;
mod latex_breaks;
mod latex_escapes;
pub mod markdown;
mod markdown_beginnings;
mod markdown_escapes;
mod markdown_notations;
pub mod runs;
mod spaces;
mod spans;
pub mod trees;

//! Citations and a bibliography by texts alone: a style file, locale files, items, citations and
//! options. The answer is JSON or lines in a form.
#![tactic(auto)]

pub mod answering;
pub mod calling;
mod lines;

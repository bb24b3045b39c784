//! The forms of what is written: streams of pieces as text, HTML, Markdown and LaTeX.
#![tactic(auto)]

pub mod forms;
pub mod items;

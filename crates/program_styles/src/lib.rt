//! What is built in, byte for byte: four styles of CSL 1.0.2, with works and citations, the files of
//! examples/styles, and the style sheet of pages.
#![tactic(auto)]

mod author_date;
mod labels;
mod notes;
mod numeric;
pub mod sheet;
pub mod styles;
pub mod works;

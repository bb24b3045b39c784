//! Documents of the program: read, answered and printed.
//!
//! A document is JSON: styles, locales, entries, requests and a bibliography. Its answer is text:
//! each citation is a line. Where the bibliography's style has a bibliography, an empty line
//! follows, and then a line for each item: its key, a tab and its text.
#![tactic(auto)]

pub mod document;
pub mod error;
pub mod faults;
pub mod filling;
pub mod input;
pub mod limits;
mod printing;
pub mod running;

//! What the program prints: citations and lists in a form, pages with a style sheet, and links from
//! cites to items.
#![tactic(auto)]

pub mod documents;
pub mod linking;
pub mod page;
pub mod printing;

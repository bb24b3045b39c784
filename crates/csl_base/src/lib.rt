//! Style values, entries, trees and stacks of the citation driver.
//!
//! Contracts see plain data: a text is its list of bytes, a list is its items, a tree is the list
//! of its children. No capacity and no address shows.
#![tactic(auto)]

pub mod laws;

pub use value_lists::{seq, stack, text};
pub use value_sources::{entry, formatting, initials, names, taxonomy};
pub use value_styles::{calls, element, locale, ring, style};
pub use value_trees::{elem, equality, find, first_names, last_text, print, simplify};

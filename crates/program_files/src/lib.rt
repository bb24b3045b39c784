//! The files that the program reads: styles with their parents, locales, references, citations and
//! abbreviations, with a line on standard error for what is wrong or odd in each.
#![tactic(auto)]

pub mod abbreviations;
pub mod document_error;
pub mod entries;
pub mod error;
pub mod files;
pub mod items;
pub mod json_causes;
pub mod locales;
pub mod near_styles;
pub mod references;
pub mod reports;
pub mod styles;
pub mod unknown_ids;

//! The fields of BibTeX and BibLaTeX (the manual of biblatex, "Database Guide"): lists, names, dates,
//! languages, and the tables of types and fields with their names in CSL.
#![tactic(auto)]

pub mod dates;
pub mod genres;
pub mod languages;
pub mod lists;
pub mod months;
pub mod names;
pub mod strings;
pub mod tables;

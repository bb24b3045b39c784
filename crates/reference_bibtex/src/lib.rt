//! BibTeX and BibLaTeX as items of CSL-JSON: types and fields by the manual of biblatex, in CSL's
//! terms as pandoc has them.
#![tactic(auto)]

mod conversion;
mod cursor;
pub mod entry;
mod identifiers;
mod inheritance;
mod numbers;
mod persons;
mod places;
mod publication;
pub mod reading;
pub mod syntax;
mod titles;

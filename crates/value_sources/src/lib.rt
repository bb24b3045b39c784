//! What a source says and how it looks: variables, persons, dates, entries, name forms,
//! formattings.
#![tactic(auto)]

pub mod entry;
pub mod formatting;
pub mod initials;
pub mod laws;
pub mod names;
pub mod taxonomy;

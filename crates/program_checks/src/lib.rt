//! Files of all kinds are checked, and documents answered.
#![tactic(auto)]

pub mod checking;
mod document_pages;
pub mod documents;
mod findings;

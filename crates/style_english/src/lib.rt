//! The words of American English, which stand for all that other locales lack, and which documents
//! have that name no language.
#![tactic(auto)]

pub mod language;
pub mod words;

//! The order of texts: letters, as the language has them in order, before accents before case,
//! without regard to punctuation.
#![tactic(auto)]

pub mod alphabets;
pub mod key;
pub mod letters;
mod tables;

//! The LaTeX of bibliographies, as texts with the markup of CSL-JSON.
#![tactic(auto)]

mod address;
mod alphabets;
mod commands;
mod formula;
mod formula_signs;
mod markup;
mod output;
mod reader;
pub mod run;
pub mod sentence;
mod source;
mod symbols;
pub mod text;
mod words;

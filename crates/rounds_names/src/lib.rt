//! Cites that read alike are disambiguated by their names (CSL 1.0.2, disambiguation).
#![tactic(auto)]

mod by_name;
mod classes;
mod cut;
mod group;
pub mod laws;
pub mod marks;
mod named_cite;
mod persons;
mod raising;
mod steps;

//! Bringing together the cites of a request that have the same names, and collapsing them: ranges
//! of citation numbers, and years of the same names (CSL 1.0.2, cite grouping and cite collapsing).
#![tactic(auto)]

mod blocks;
pub mod collapse;
pub mod collapse_laws;
pub mod grouping;
pub mod laws;
mod moving;
mod numbers;
mod tokens;
mod years;

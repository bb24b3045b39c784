//! How the answer is put together from the cites as they stand in the end: citations, and the
//! bibliography.
#![tactic(auto)]

pub mod assemble;
pub mod bibliography;
pub mod by_means;
pub mod citation;
pub mod last_tree;
pub mod laws;
pub mod rendered;
pub mod without_empty;

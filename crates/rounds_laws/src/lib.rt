//! Further laws of answers in the modes three and full: how blocks stand, what collapses, and what
//! an answer costs.
#![tactic(auto)]

pub mod laws;

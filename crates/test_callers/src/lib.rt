//! Callers that rely on the laws of an answer alone; the public paths of the crates that users
//! know; each law at a concrete type; and values and trees of a caller's own, which no document
//! makes.
#![tactic(auto)]

pub mod clients;
pub mod csl_clients;
pub mod laws;
pub mod paths;
pub mod places;
pub mod stacks;
pub mod values;

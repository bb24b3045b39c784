//! How much a style may do, so that a style of anyone costs neither minutes nor gigabytes: what the
//! steps of its programs cost, and what a document has for them.
#![tactic(auto)]

pub mod budget;
pub mod cost;
pub mod error;
pub mod paths;
pub mod places;
pub mod sections;
pub mod sizes;
pub mod steps;

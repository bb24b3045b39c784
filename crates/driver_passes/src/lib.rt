//! What the driver's passes work on: items, requests, and the renders of their cites.
#![tactic(auto)]

pub mod acyclic;
pub mod first;
pub mod item;
pub mod laws;
pub mod places;
pub mod positions;
pub mod purposes;
pub mod renders;
pub mod request;

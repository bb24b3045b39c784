//! The cites of requests once all mentions are disambiguated: what is known of each before it is
//! arranged, and what arranging makes of it.
#![tactic(auto)]

pub mod arranging;
pub mod cites;
pub mod mentions;
pub mod repeats;
pub mod requests;

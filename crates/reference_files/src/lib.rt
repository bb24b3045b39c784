//! Files of references: in which form they are, and their items.
#![tactic(auto)]

pub mod form;
pub mod reading;

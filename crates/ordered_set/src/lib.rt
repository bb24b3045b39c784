//! Distinct keys in the order in which they came. They are found by their order, and not by a hash:
//! no choice of keys makes a look-up slow.
#![tactic(auto)]

pub mod set;

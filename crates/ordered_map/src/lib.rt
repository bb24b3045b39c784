//! Values by distinct keys, in the order in which these came. They are found by the order of the
//! keys, and not by a hash: no choice of keys makes a look-up slow.
#![tactic(auto)]

pub mod map;

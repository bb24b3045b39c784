//! Driven documents: read, and answered with what their hosts have written.
#![tactic(auto)]

pub mod driving;
pub mod faults;
mod printing;
mod reading;
pub mod styles;

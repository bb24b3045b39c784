//! Answers that wrong bodies give. The laws are false of them.
//!
//! For each body that does something wrong there is a small input, the answer of the body on it,
//! written down as plain data, and a function whose clause `refuted` says that the law is false of
//! this answer; its clause `right` says that the law is true of the right answer on the same input.
//! So no law is empty, and none is too weak to tell.
#![tactic(auto)]

pub mod cites;
pub mod further;
pub mod given;
pub mod listed;
pub mod marks;
pub mod numbers;
pub mod orders;
pub mod rounds;
pub mod runs;
pub mod sample;

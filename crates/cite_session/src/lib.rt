//! Sessions: a document that is edited, and answered by what changed.
#![tactic(auto)]

pub mod changes;
mod citations;
mod ids;
mod library;
mod printing;
pub mod session;
mod style;
pub mod texts;
mod writing;
mod written;

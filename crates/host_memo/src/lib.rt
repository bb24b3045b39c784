//! A writer over a source: code of any kind, which is asked once for each task.
#![tactic(auto)]

pub mod host_style;
pub mod key;
pub mod laws;
pub mod memo;
pub mod source;
pub mod table;

//! What the driver asks for is written: the cites and the items of a document, by the layouts of
//! its style.
#![tactic(auto)]

pub mod asking;
pub mod cites;
pub mod entries;
pub mod error;
mod facts;
pub mod kept;
pub mod limits;
mod plain_cites;
pub mod programs;
pub mod setting;
pub mod sorting;
mod standing;
pub mod wording;
pub mod writer;

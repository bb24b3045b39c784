//! References read from CSL-JSON: the data format of CSL 1.0.2 (csl-data.json), as Zotero and
//! pandoc write it.
#![tactic(auto)]

mod dates;
pub mod fault;
pub mod guesser;
mod items;
mod keys;
mod members;
mod names;
mod note;
mod oddities;
mod place;
mod reader;
pub mod reading;
mod texts;
pub mod unkept;
pub mod warning;

//! The texts of a call are read: a style file, locale files, options, items and citations, with what
//! is wrong or odd in them and its place. References of other forms are read as CSL-JSON.
#![tactic(auto)]

pub mod citations;
pub mod document;
mod entries;
pub mod error;
pub mod findings;
mod items;
pub mod json;
mod locales;
pub mod options;
pub mod reader;
pub mod references;
pub mod remark;
pub mod style;
pub mod styling;
pub mod texts;

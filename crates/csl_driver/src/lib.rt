//! Requests for citations and a bibliography, and the driver that answers them.
//!
//! What stands below the driver is passed on, so that a user of the driver names it alone: style
//! values, entries and trees, and what a cite is written with.
#![tactic(auto)]

pub use csl_base::{
    elem, element, entry, formatting, initials, locale, names, seq, stack, style, taxonomy, text,
};
pub use csl_writing::{
    apart, brackets, cite, context, counter, layout_writer, locator, lookup, means, prepared,
    properties, purpose, state, terms, token, writing, year,
};
pub use driver_assembly::rendered;
pub use driver_passes::{item, request};
pub use driver_writers::{task, writer};
pub use rounds_runs::mode;

pub mod account;
mod bibliography;
mod cited;
mod csl;
pub mod csl_account;
mod csl_bibliography;
mod csl_cites;
mod draft;
pub mod driver;
pub mod error;
mod finish;
mod finish_csl;
pub mod laws;
pub mod passes;
mod rings;
pub mod standalone;

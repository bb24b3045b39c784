//! Rendering of the citation driver: a cite and an item of the bibliography, picked and then
//! written.
//!
//! What stands below is passed on: the small values of a cite, and the context in which it is
//! written.
#![tactic(auto)]

pub use driver_lookup::{apart, brackets, laws, locator, means, properties, purpose, state, year};
pub use driver_styles::{prepared, terms};
pub use driver_writers::{cite, counter};
pub use layout_context::{context, token, writing};

mod date;
mod first_field;
pub mod layout_writer;
pub mod lookup;
mod open_node;
mod parts;
pub mod picking;
mod purposes;
mod render;
mod section;
mod spare;
mod subject;

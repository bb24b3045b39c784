//! What a style file or a locale file of CSL 1.0.2 says, as typed values, with the names of CSL
//! 1.0.2: variables, item types, locator types and terms, each a value of its own.
//!
//! Each enum of names has one table of rows in the order of the names (by bytes), so that the row
//! of a value is found by its number and the row of a name by halving.
#![tactic(auto)]

pub mod choose;
pub mod date;
pub mod element;
pub mod fallback;
pub mod formatting;
pub mod info;
pub mod item_type;
pub mod locale;
pub mod locator;
pub mod names;
mod rows;
pub mod sections;
pub mod style;
pub mod term;
pub mod variable;

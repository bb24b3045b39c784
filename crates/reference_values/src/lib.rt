//! References as CSL 1.0.2 sees them: what a citation processor reads of an item.
#![tactic(auto)]

pub mod date;
mod date_text;
mod edtf;
pub mod markup;
pub mod name;
pub mod particles;
mod point;
pub mod reference;
pub mod rich_text;

//! What a style is asked at each cite: whether it writes year suffixes itself, a style that was
//! looked at once, and the terms of locales; and limits that a host sets to the styles of others.
#![tactic(auto)]

pub mod limits;
pub mod locales;
mod macros;
pub mod prepared;
pub mod suffix_text;
pub mod term_table;
pub mod terms;

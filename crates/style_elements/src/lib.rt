//! What the elements of CSL 1.0.2 have, and how that is read: attributes and children, words for
//! variables, types and terms, and calls of macros, in an order in which each macro follows those
//! that it calls; and what is wrong with a style file or a locale file, or odd in it, and where.
//!
//! What is wrong is refused with its place; an attribute, a variable, a term or a type that CSL
//! 1.0.2 lacks is noted and ignored.
#![tactic(auto)]

pub mod attributes;
pub mod children;
pub mod error;
pub mod fault;
pub mod limits;
pub mod macros;
pub mod nearest;
pub mod order;
pub mod outline;
pub mod reading;
pub mod refusal;
pub mod shape;
pub mod stop;
pub mod tables;
pub mod warning;
pub mod words;

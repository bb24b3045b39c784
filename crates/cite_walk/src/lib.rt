//! A cite or an item of a bibliography, written by the program of its layout.
#![tactic(auto)]

pub mod abbreviations;
pub mod charges;
pub mod cite;
mod conditions;
mod dates;
mod frames;
pub mod labels;
mod links;
mod locators;
mod names;
mod numbers;
mod persons;
pub mod sorted;
pub mod texts;
pub mod values;
pub mod walk;

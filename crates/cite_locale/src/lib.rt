//! The words of a language: terms, ordinals, quotation marks, dates and options, looked for in a
//! chain of locales; and numbers as a style writes them: their forms, when a label is plural, and
//! locators.
#![tactic(auto)]

pub mod chain;
mod find;
pub mod forms;
mod indexed;
pub mod locators;
pub mod ordinals;
pub mod plurals;
pub mod tags;
pub mod terms;

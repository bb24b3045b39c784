//! The citations and the bibliography of a document, in its style: the driver is asked, and its
//! answer becomes streams.
#![tactic(auto)]

pub mod answer;
mod driven;
mod joining;
mod requests;

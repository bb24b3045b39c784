//! The first renders of cites, and the rounds in which cites that read alike are disambiguated.
#![tactic(auto)]

mod compared;
mod counting;
pub mod first_renders;
mod marks;
mod rerender;
pub mod rounds;
mod states;

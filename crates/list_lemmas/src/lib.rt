//! Lemmas on lists that the kit lacks and several crates use: walks that have come one member
//! further, tests of places, and stretches of places that are as long as can be.
#![tactic(auto)]

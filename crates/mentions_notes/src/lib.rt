//! What positions and notes say of cites, where works are disambiguated as CSL 1.0.2 has it: which
//! cite of an entry is the first, the number of its first note, near notes, and which cites
//! repeat the one before them (CSL 1.0.2, position and near-note-distance).
#![tactic(auto)]

pub mod notes;
pub mod repeats;

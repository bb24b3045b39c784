//! Laws of cites and names where works are disambiguated as CSL 1.0.2 has it: what a caller may rely
//! on of what each cite is given, how cites are brought together and collapse, and where names are
//! added.
#![tactic(auto)]

pub mod laws;

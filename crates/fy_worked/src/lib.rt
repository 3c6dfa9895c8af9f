//! Worked answers: each is written out by hand, and a definition accepts it, or refuses it with one
//! thing turned. Laws alone, no code.
#![tactic(auto)]

pub mod laws;

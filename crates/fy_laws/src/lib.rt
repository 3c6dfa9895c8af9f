//! Worked journals: each is written out by hand and shown legal, with its final state, or shown not
//! to be; and what `run` and `guard` write, which `check` finds legal. Laws alone, no code.
#![tactic(auto)]

pub mod laws;

//! The engine of `simulate`: the actors of a cluster take their turns on one thread, in an order
//! that is drawn from a seed, and the audit of what came of it goes out.
#![tactic(auto)]

pub mod laws;
mod simulate;

pub use simulate::run_simulate;

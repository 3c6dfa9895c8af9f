//! The engine of `swarm`: every actor of a cluster is let loose on a thread of its own, and the
//! audit of what came of it goes out.
#![tactic(auto)]

mod cast;
mod player;
mod swarm;

pub use swarm::run_swarm;

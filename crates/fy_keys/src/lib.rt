//! Which keys of a history are linearizable registers.
#![tactic(auto)]

mod judged;
pub mod laws;
mod operations;

pub use judged::{Judged, judge_history};

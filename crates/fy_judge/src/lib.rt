//! The engine of `judge`: policies, processes and asks in, a line for each ask out.
#![tactic(auto)]

mod answer;
mod input;
mod judge;
pub mod laws;
mod line;
mod stop;

pub use judge::{MOST_JUDGE_BYTES, run_judge};
pub use stop::{JudgeFault, JudgeStop};

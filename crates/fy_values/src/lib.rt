//! Whether histories of registers are linearizable whose values are any numbers.
#![tactic(auto)]

mod judging;
pub mod laws;
mod numbers;
mod values;

pub use judging::{is_in_time, judge_keys, judge_values};

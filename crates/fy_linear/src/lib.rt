//! The engine of `linear`: a history in, out which of its keys aren't linearizable registers.
#![tactic(auto)]

mod engine;
mod spelling;

pub use engine::run_linear;
pub use spelling::{Jsonl, Spelling};

//! The engine of `verdict`: an audit and a history in, out what became of each acknowledged record,
//! and whose fault each loss is.
#![tactic(auto)]

mod engine;
mod entries;
mod findings;
mod spelling;
mod watched;

pub use engine::{Outcome, run_verdict};
pub use findings::{Evidence, Fault, Finding, Findings};
pub use spelling::{Jsonl, Spelling};

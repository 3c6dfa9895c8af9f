//! The engine of `check`: an audit in, a line out that confirms or refutes it.
#![tactic(auto)]

mod check;
mod input;
pub mod laws;
mod sink;

pub use check::{Finding, ReplayedAudit, replay_audit, run_check, write_finding};
pub use input::{AuditInput, input_stop};
pub use sink::Sink;

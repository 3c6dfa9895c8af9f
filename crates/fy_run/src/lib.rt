//! The engine of `run`: a script in, the audit of its acts out.
#![tactic(auto)]

mod run;

pub use run::run_script;

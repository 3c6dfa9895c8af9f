//! The engine of `config`: whether a file is a cluster file, with its counts, or where its fault
//! lies and what was expected there.
#![tactic(auto)]

mod config;
mod explain;
mod fields;
mod finding;
mod hints;
mod limits;
mod names;
mod policies;
mod scan;
mod shapes;
mod shown;
mod tables;
mod unmet;

pub use config::{Refusal, run_config};

//! Cluster files: what a cluster begins with, written as a TOML document.
#![tactic(auto)]

mod fault;
mod fields;
mod given;
pub mod laws;
mod limits;
mod names;
mod reading;
mod tables;

pub use fault::{ConfigFault, Part};
pub use limits::{MOST_FILE_BYTES, MOST_PROTECTIONS};
pub use reading::read_config;

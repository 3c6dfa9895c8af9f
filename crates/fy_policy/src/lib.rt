//! Replication policies: their text, their limits, and what sets of processes satisfy one; tallies,
//! which keep the answer while a set changes.
#![tactic(auto)]

mod build_counters;
mod copied;
mod fault;
pub mod laws;
mod limits;
mod node;
mod policy;
mod reading;
mod satisfaction;
mod shape;
mod tally;
mod text;
pub mod text_laws;

pub use fault::PolicyFault;
pub use limits::{
    LEAST_COUNT, MOST_COUNT, MOST_DEPTH, MOST_NODES, MOST_POLICIES, MOST_READ_BYTES,
    MOST_TEXT_BYTES,
};
pub use policy::{Policy, satisfied};
pub use reading::read_policy;
pub use shape::Shape;
pub use tally::Tally;
pub use text::policy_text;

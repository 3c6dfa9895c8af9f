//! How much of a cluster may forget and still vote, so that nobody is elected who lacks an
//! acknowledged record.
#![tactic(auto)]

mod forgetting;
pub mod laws;

pub use forgetting::{Forgetting, forgetting_of, forgettings_by_each, forgettings_of};

//! Whose fault a lost record is: which processes were destroyed since a record was acknowledged, and
//! which heals the record rested on.
#![tactic(auto)]

mod beyond;
pub mod laws;
mod outages;
mod turns;
mod watch;

pub use beyond::Note;
pub use outages::{Blame, Heal, Outages};
pub use watch::Watch;

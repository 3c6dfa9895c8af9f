//! Kinds of kill, sets of kinds, orders to kill, and verdicts on them.
#![tactic(auto)]

mod kind;
mod kind_set;
pub mod laws;
mod order;
mod verdict;

pub use kind::{HARDEST_FIRST, Kind, MILDEST_FIRST};
pub use kind_set::KindSet;
pub use order::{Floor, KillOrder, Target};
pub use verdict::{Rule, Verdict};

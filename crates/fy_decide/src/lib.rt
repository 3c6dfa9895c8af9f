//! What may be destroyed: the dead book, which keeps who is destroyed and who is left, and the
//! verdict on an order.
#![tactic(auto)]

mod dead_book;
pub mod laws;
mod tallies;
mod targets;
mod verdict;

pub use dead_book::{DeadBook, Loss, MakeFault, first_unmet};
pub use targets::Targets;
pub use verdict::{judge, judge_clog, judge_clog_at, judge_process, judge_targets};

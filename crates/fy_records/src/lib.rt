//! What became of each record of a history: its verdict by rules, with the lines that show it.
#![tactic(auto)]

mod counts;
mod disks;
mod evidence;
mod folds;
mod index;
mod judge;
mod keys;
pub mod laws;
mod seen;
mod verdict;

pub use counts::{Counts, count_records};
pub use evidence::{Lacker, disks_with, lackers, tellers};
pub use index::Index;
pub use judge::judge_records;
pub use verdict::{Judged, Loss, Verdict};

/// How long a process has to be asked at the end before what it lacks counts: a minute, in
/// nanoseconds.
pub const MINUTE_NANOS: u64 = 60_000_000_000;

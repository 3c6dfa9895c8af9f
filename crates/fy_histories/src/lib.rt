//! What the engines share that judge histories: why one stops, with its fault line and exit
//! status.
#![tactic(auto)]

mod stop;

pub use stop::{HistoriesStop, write_histories_stop};

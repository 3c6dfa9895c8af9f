//! Histories: what clients asked of a store, what it answered, and what was found on its disks.
#![tactic(auto)]

mod fault;
mod history;
pub mod laws;
mod line;
mod names;
mod progress;
mod reader;
mod whole;

pub use fault::{HistoryFault, HistoryStop};
pub use history::{Answer, DiskLine, End, EntryLine, History, Place, Read, Trace, Write};
pub use line::{MOST_CLIENTS, MOST_NODES};
pub use names::Names;
pub use progress::Known;
pub use reader::read_history;

/// How many lines a history may have: 4,194,304.
pub const MOST_HISTORY_LINES: u32 = 4_194_304;

/// How many bytes a line may have, without its line feed: 65,536.
pub const MOST_HISTORY_LINE_BYTES: usize = 65_536;

/// Where indices and times end: 2^63.
pub const MOST_WHOLE: u64 = 9_223_372_036_854_775_808;

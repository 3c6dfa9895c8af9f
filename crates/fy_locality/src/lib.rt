//! Who the processes are: names, numbers, the keys of a locality, and sets of processes.
#![tactic(auto)]

mod key;
pub mod laws;
mod locality;
mod map;
mod name;
mod process_set;
mod processes;
mod try_copy;

pub use key::{KEYS, Key};
pub use locality::Locality;
pub use map::{Map, MapFault};
pub use name::{BadName, Name};
pub use process_set::{ProcSet, SET_WORDS};
pub use processes::Processes;
pub use try_copy::{TryCopy, try_copy_each};

/// The most processes that a map has. Their numbers are below it, and so is each member of a set of
/// processes.
pub const MOST_PROCESSES: u32 = 1024;

/// The number of a process: its place in the list of processes.
#[derive(Clone, Copy, PartialEq, Eq, Debug)]
pub struct ProcId(pub u32);

//! Acts, which actors ask of a cluster, its replies, and the journal of both, the oldest first.
#![tactic(auto)]

mod act;
mod entry;
mod fault;
mod journal;
pub mod laws;
mod limits;
mod reply;
mod version;

pub use act::Act;
pub use entry::Entry;
pub use fault::JournalFault;
pub use journal::Journal;
pub use limits::MOST_ENTRIES;
pub use reply::{Refusal, Reply};
pub use version::Version;

//! Events of a run: when each entry of an audit came, and what was done; columns of a picture by
//! these times.
#![tactic(auto)]

mod columns;
mod done;
mod event;
mod events;
pub mod laws;
mod micros;

pub use columns::{TimeColumns, columns_by_time, events_before};
pub use done::{answered, differs};
pub use event::{Done, Event, EventFault, done_of};
pub use events::{EventsFault, read_events};

/// How many bytes a file of events may have: 268,435,456.
pub const MOST_EVENTS_BYTES: usize = 268_435_456;

/// The time before which an event has to come, in microseconds: 1,000,000 seconds.
pub const MOST_MICROS: u64 = 1_000_000_000_000;

/// A tenth of a second, in microseconds. A column lasts so long, or a multiple of it.
pub const TENTH_MICROS: u64 = 100_000;

//! What a picture of a journal shows: the cluster after so many entries, column by column.
#![tactic(auto)]

mod column;
mod glyph;
mod keeping;
mod killable;
pub mod laws;
mod layout;
mod named;
mod picture;
mod recorded;
mod recorder;
mod tallied_set;

pub use column::{Column, States};
pub use glyph::{rule_of, struck_as_ordered};
pub use named::named_by;
pub use picture::{Picture, draw};
pub use recorder::Recorder;
pub use tallied_set::symmetric_difference;

/// The most columns that a journal is laid out in. Where it has more entries, each column stands
/// for several.
pub const MOST_COLUMNS: usize = 4000;

/// The most records of which a picture tells the keeper.
pub const MOST_KEPT: u32 = 1000;

//! The limit of a journal.

/// How many entries a journal may have, so that each has a number of 32 bits: 2^32.
pub const MOST_ENTRIES: usize = 4_294_967_296;

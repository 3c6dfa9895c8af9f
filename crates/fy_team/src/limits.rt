//! The limits of teams and records.

/// How many members a team may have.
pub const MOST_MEMBERS: usize = 1024;

/// How many teams there may be.
pub const MOST_TEAMS: usize = 4096;

/// How many records there may be.
pub const MOST_RECORDS: usize = 65_536;

/// How many bytes a record may hold.
pub const MOST_BYTES: usize = 256;

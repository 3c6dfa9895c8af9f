//! How long a cluster file and its lists may be.

/// How many bytes a cluster file may have.
pub const MOST_FILE_BYTES: usize = 1_048_576;
/// How many protections a cluster file may have.
pub const MOST_PROTECTIONS: usize = 1024;

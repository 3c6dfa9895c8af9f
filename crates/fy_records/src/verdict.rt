//! What may have become of a record.
use fy_history::{Place, Read, Write};

/// What shows that a record is lost.
#[derive(Clone, Copy, PartialEq, Eq, Debug)]
pub enum Loss {
    /// The last read of the store as a whole lacked it.
    Store,
    /// No such read was answered, and a process lacked it to the end.
    Process,
    /// No read at the end was answered, and no disk has it.
    Disks,
}

/// What became of an acknowledged record.
#[derive(Clone, Copy, PartialEq, Eq, Debug)]
pub enum Verdict {
    /// It isn't there at the end.
    Lost(Loss),
    /// A read told a value that nobody wrote.
    Wrong,
    /// A whole process lacks it to the end.
    Missing,
    /// No read at the end told it, and no disk has it.
    Unreadable,
    /// A read lacked it that began after it was known.
    Stale,
    /// None of these.
    Kept,
}

/// An acknowledged record with its verdict.
#[derive(Clone, Copy, PartialEq, Eq, Debug)]
pub struct Judged {
    pub write: Write,
    /// Where it was acknowledged.
    pub acked: Place,
    pub verdict: Verdict,
    /// The read that shows it; `None` where no single one does.
    pub read: Option<Read>,
    /// For how long a stale record was known when a read began for the last time that lacked it,
    /// in nanoseconds; else 0.
    pub stale_nanos: u64,
}

//! Why a history is refused.
use fy_lines::InputFault;
use std::alloc::AllocError;

/// Why a line is refused, the first that holds.
#[derive(Clone, Copy, PartialEq, Eq, Debug)]
pub enum HistoryFault {
    /// It has more than 65,536 bytes, or 4,194,304 lines stand before it.
    TooLong,
    /// It is no JSON object of the forms of a history.
    Syntax,
    /// Its index isn't how many lines stand before it.
    Index,
    /// Its time is before that of the line before.
    Time,
    /// Its client is at work or may not ask any more, or hasn't begun what ends.
    Client,
    /// A write of the key had the value already.
    Value,
    /// Its entry isn't behind that of the entry line before, or the audit has no such entry.
    Entry,
    /// A write begins behind the line `written`, that line is a second one, or a disk is told of
    /// before it.
    Order,
    /// The cluster has no such process.
    Node,
}

/// Why a history isn't read.
#[derive(Clone, Copy, PartialEq, Eq, Debug)]
pub enum HistoryStop {
    /// The first faulty line, counted from 1, and its first fault.
    Line { number: u32, fault: HistoryFault },
    /// A call of the reader failed.
    Reader,
    /// An allocation failed.
    NoMemory,
}

/// Why a line isn't taken.
#[derive(Clone, Copy, PartialEq, Eq, Debug)]
pub(crate) enum NotTaken {
    Faulty(HistoryFault),
    NoMemory,
}

impl From<AllocError> for NotTaken {
    fn from(_refused: AllocError) -> NotTaken {
        NotTaken::NoMemory
    }
}

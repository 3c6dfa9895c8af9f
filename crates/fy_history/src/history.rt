//! A history as its operations: texts are numbers here, by `Names`.
use crate::Names;
use fy_events::Done;

/// Where a line stands, and when what it says happened.
#[derive(Clone, Copy, PartialEq, Eq, Debug)]
pub struct Place {
    /// How many lines stand before.
    pub line: u32,
    /// Nanoseconds since the beginning.
    pub nanos: u64,
}

/// How a write ended.
#[derive(Clone, Copy, PartialEq, Eq, Debug)]
pub enum End {
    /// No line says that it ended.
    Open,
    /// It was acknowledged.
    Done,
    /// It is known not to be done.
    Undone,
    /// The store said no, and may have done it.
    Refused,
    /// It may be done or not.
    Unknown,
}

/// A write of a value of a key.
#[derive(Clone, Copy, PartialEq, Eq, Debug)]
pub struct Write {
    pub key: u32,
    pub value: u32,
    /// Where it began.
    pub began: Place,
    /// Where it ended; `None` where it is open.
    pub ended: Option<Place>,
    pub end: End,
}

/// What a read was answered.
#[derive(Clone, Copy, PartialEq, Eq, Debug)]
pub enum Answer {
    /// It was answered nothing that tells of the key.
    Unanswered,
    /// The key has no value.
    Nothing,
    /// The key's value.
    Value(u32),
}

/// A read of a key.
#[derive(Clone, Copy, PartialEq, Eq, Debug)]
pub struct Read {
    pub key: u32,
    /// The process that was asked; `None` where the store as a whole was.
    pub node: Option<u16>,
    /// Where it began.
    pub began: Place,
    /// Where it ended; `None` where it is open.
    pub ended: Option<Place>,
    pub answer: Answer,
    /// How many times the store as a whole has the value.
    pub times: u32,
}

/// An entry of the audit was answered.
#[derive(Clone, Copy, PartialEq, Eq, Debug)]
pub struct EntryLine {
    pub at: Place,
    /// The entry's place in the audit.
    pub entry: u32,
    /// What was done; `None` where that is what the reply says.
    pub does: Option<Done>,
}

/// What was found on a disk.
#[derive(Clone, Copy, PartialEq, Eq, Debug)]
pub enum Trace {
    /// The folder has this record.
    Has { key: u32, value: u32 },
    /// All that the folder has was told.
    All,
    /// The folder may have more than was told.
    Some,
    /// Something of this key stands in the files.
    Stands { key: u32 },
    /// Of no key but those told does anything stand in the files.
    NothingElse,
}

/// A line that tells of a disk.
#[derive(Clone, Copy, PartialEq, Eq, Debug)]
pub struct DiskLine {
    /// The process whose disk it is.
    pub node: u16,
    pub trace: Trace,
}

/// All of a history. Writes and reads stand in the order in which they began.
#[derive(Drop)]
pub struct History {
    /// The texts of the numbers by which keys and values are told apart.
    pub names: Names,
    pub writes: Vec<Write>,
    pub reads: Vec<Read>,
    pub entries: Vec<EntryLine>,
    pub disks: Vec<DiskLine>,
    /// Where the line stands behind which no write begins.
    pub written: Option<Place>,
    /// How many lines it has.
    pub lines: u32,
}

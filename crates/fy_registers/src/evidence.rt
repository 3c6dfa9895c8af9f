//! What shows that a history isn't linearizable.

use crate::operation::Operation;

/// Two operations that wrote or answered one value.
#[derive(Clone, Copy, Debug, PartialEq, Eq)]
pub struct Span {
    /// The one that ended first.
    pub first: Operation,
    /// The one that began last.
    pub last: Operation,
}

/// What shows that a history isn't linearizable.
#[derive(Clone, Copy, Debug, PartialEq, Eq)]
pub enum Evidence {
    /// A read answered a value that nobody wrote.
    Unwritten { read: Operation },
    /// A read ended before the write of its value began.
    BeforeWrite { read: Operation, write: Operation },
    /// An operation of a value ended before a read that found nothing began.
    Nothing { ended: Operation, read: Operation },
    /// Of each of two values an operation ended before one of the other value began.
    Conflict { one: Span, other: Span },
}

/// What is known of a history.
#[derive(Clone, Copy, Debug, PartialEq, Eq)]
pub enum Judgement {
    Linearizable,
    Not(Evidence),
    /// Two operations write one value, and the history isn't judged.
    Twice { one: Operation, other: Operation },
}

//! A read as it is judged.
ghost use Rattle.std.specs.Prelude.{◌≡◌};
ghost use Rattle.fy_records.specs.Reads.{is_answered, lacks, tells, began_after, is_at_end, is_of_store, passes, process_of};

use fy_history::{Answer, Place, Read};

/// A read, and what the history as a whole says of it.
#[derive(Clone, Copy, PartialEq, Eq, Debug)]
pub struct Seen {
    pub read: Read,
    /// Its process counted as whole when it answered.
    pub whole: bool,
    /// It told a value that no write gave its key, but such as are known not to be done.
    pub wrong: bool,
}

/// What is asked of a read.
#[derive(Clone, Copy)]
pub(crate) enum Test {
    /// The key had no value.
    Lacks,
    /// The key had this value.
    Tells(u32),
    /// The store as a whole was asked behind this line, and answered.
    StoreAfter(u32),
    /// It began behind the line of `written`, if there is one, and was answered.
    AnsweredAtEnd(Option<Place>),
    /// It began no earlier than at this line.
    From(u32),
    /// Its process counted as whole.
    Whole,
}

impl Seen {
    /// Whether it was answered.
    pub(crate) fn is_answered(&self) -> bool
        ensures { result ≡ is_answered self.now }
    {
        match self.read.answer {
            Answer::Unanswered => false,
            Answer::Nothing | Answer::Value(_) => true,
        }
    }

    /// Whether the key had no value.
    pub(crate) fn lacks(&self) -> bool
        ensures { result ≡ lacks self.now }
    {
        match self.read.answer {
            Answer::Nothing => true,
            Answer::Unanswered | Answer::Value(_) => false,
        }
    }

    /// Whether the key had this value.
    pub(crate) fn tells(&self, value: u32) -> bool
        ensures { result ≡ tells value self.now }
    {
        match self.read.answer {
            Answer::Value(told) => told == value,
            Answer::Unanswered | Answer::Nothing => false,
        }
    }

    /// Whether it began behind a line.
    pub(crate) fn began_after(&self, line: u32) -> bool
        ensures { result ≡ began_after line self.now }
    {
        line < self.read.began.line
    }

    /// Whether it is a read at the end: one that began behind the line of `written`.
    pub(crate) fn is_at_end(&self, written: Option<Place>) -> bool
        ensures { result ≡ is_at_end written self.now }
    {
        match written {
            Some(place) => self.began_after(place.line),
            None => false,
        }
    }

    /// Whether the store as a whole was asked.
    pub(crate) fn is_of_store(&self) -> bool
        ensures { result ≡ is_of_store self.now }
    {
        self.read.node.is_none()
    }

    /// The number of the process that it asked, from 1 on; 0 for the store as a whole.
    pub(crate) fn process(&self) -> u32
        ensures { result ≡ process_of self.now }
    {
        match self.read.node {
            Some(node) => node as u32 + 1,
            None => 0,
        }
    }

    /// Whether it passes a test.
    pub(crate) fn passes(&self, test: Test) -> bool
        ensures { result ≡ passes test self.now }
    {
        match test {
            Test::Lacks => self.lacks(),
            Test::Tells(value) => self.tells(value),
            Test::StoreAfter(line) => {
                self.is_of_store() && self.is_answered() && self.began_after(line)
            }
            Test::AnsweredAtEnd(written) => self.is_answered() && self.is_at_end(written),
            Test::From(line) => !(self.read.began.line < line),
            Test::Whole => self.whole,
        }
    }
}

//! The operations of a register.

ghost use Rattle.std.specs.Prelude.{◌≡◌, IsTrue, ◌↔◌, All};
ghost use Rattle.fy_registers.specs.Linear.{IsHistory, IsWithin};
ghost use Rattle.fy_registers.specs.declared.operation.Act.TheVariants.{Read};

/// What an operation does.
#[derive(Clone, Copy, Debug, PartialEq, Eq)]
pub enum Act {
    /// It writes a value.
    Write(u32),
    /// It answers a value, or `None`: what was there before all writes.
    Read(Option<u32>),
}

/// An operation of a register. One that is known not to have been done is none.
#[derive(Clone, Copy, Debug, PartialEq, Eq)]
pub struct Operation {
    pub act: Act,
    /// The place in the history at which it began.
    pub began: u32,
    /// The place at which it ended. Where there is none, it may have been done or not.
    pub ended: Option<u32>,
}

impl Operation {
    ghost use Rattle.fy_registers.specs.Linear.{value_of, HasEnded, IsWithin};

    /// The value that it wrote or answered.
    pub fn value(&self) -> Option<u32>
        ensures { result ≡ value_of self.now }
    {
        match self.act {
            Act::Write(value) => Some(value),
            Act::Read(answer) => answer,
        }
    }

    /// Whether it is a read that ended and found nothing.
    pub(crate) fn found_nothing(&self) -> bool
        ensures { IsTrue result ↔ ((self.now.act ≡ Read None) × HasEnded self.now) }
    {
        matches!((self.act, self.ended), (Act::Read(None), Some(_)))
    }

    /// Whether it doesn't end before it began, and its value is below a count.
    fn is_within(&self, count: usize) -> bool
        ensures { IsTrue result ↔ IsWithin count self.now }
    {
        let ends = self.ended.is_none_or(|end| self.began <= end);
        ends && self.value().is_none_or(|value| (value as usize) < count)
    }
}

/// Whether each operation is a sound one.
fn are_within(operations: &[Operation], count: usize) -> bool
    ensures { IsTrue result ↔ All (IsWithin count) operations.now }
{
    operations
        .iter()
        .all(|operation| operation.is_within(count))
}

/// Whether the operations are a history as `judge` takes it: in the order in which they began, no
/// two at one place, none ended before it began, and each value is below their count.
pub fn is_history(operations: &[Operation]) -> bool
    ensures { IsTrue result ↔ IsHistory operations.now }
{
    operations.is_sorted_by(|one, later| one.began < later.began)
        && are_within(operations, operations.len())
}

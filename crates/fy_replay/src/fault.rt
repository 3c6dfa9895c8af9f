//! Why a journal isn't found legal.
use std::alloc::AllocError;

/// Why a journal isn't found legal.
#[derive(Clone, Copy, PartialEq, Eq, Debug)]
pub enum CheckFault {
    /// The entry at this place, from 0, is the first bad one; those before it are a legal journal.
    /// Either the journal is at its limit before it, or the version has no such act, or its reply
    /// isn't the one that the rules give.
    BadEntry { at: u32 },
    /// An allocation failed.
    NoMemory,
}

impl From<AllocError> for CheckFault {
    ghost use Rattle.fy_replay.specs.declared.fault.CheckFault.TheVariants.{NoMemory};
    ghost use Rattle.std.specs.Prelude.{◌≡◌};

    ghost from_gives = { λ _ fault. fault ≡ NoMemory };

    fn from(_: AllocError) -> CheckFault {
        CheckFault::NoMemory
    }
}

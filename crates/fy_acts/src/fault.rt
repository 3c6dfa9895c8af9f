//! Why a journal can't make room.
use std::alloc::AllocError;

/// Why no room was made. The journal is then as it was before the call.
#[derive(Clone, Copy, PartialEq, Eq, Debug)]
pub enum JournalFault {
    /// With so many more there would be more than 2^32 entries.
    TooMany,
    /// An allocation failed.
    NoMemory,
}

impl From<AllocError> for JournalFault {
    ghost use Rattle.fy_acts.specs.declared.fault.JournalFault.TheVariants.{NoMemory};
    ghost use Rattle.std.specs.Prelude.{◌≡◌};

    ghost from_gives = { λ _ fault. fault ≡ NoMemory };

    fn from(_: AllocError) -> JournalFault {
        JournalFault::NoMemory
    }
}

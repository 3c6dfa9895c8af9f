//! Why a cluster makes no entry.
use std::alloc::AllocError;

/// Why an act made no entry. The cluster is then as it was before the act.
#[derive(Clone, Copy, PartialEq, Eq, Debug)]
pub enum Fault {
    /// The journal is at its limit.
    JournalFull,
    /// An allocation failed.
    NoMemory,
}

impl From<AllocError> for Fault {
    ghost use Rattle.fy_cluster.specs.declared.fault.Fault.TheVariants.{NoMemory};
    ghost use Rattle.std.specs.Prelude.{◌≡◌};

    ghost from_gives = { λ _ fault. fault ≡ NoMemory };

    fn from(_: AllocError) -> Fault {
        Fault::NoMemory
    }
}

//! Why the network refuses a call.
use std::alloc::AllocError;

/// Why a call was refused. The network is then as it was before the call.
#[derive(Clone, Copy, PartialEq, Eq, Debug)]
pub enum NetFault {
    /// More messages would be in flight than may be.
    NetFull,
    /// No message in flight has the number.
    NoMessage,
    /// The message's process is clogged.
    Clogged,
    /// The clock would go past its last tick.
    ClockEnd,
    /// An allocation failed.
    NoMemory,
}

impl From<AllocError> for NetFault {
    ghost use Rattle.fy_net.specs.declared.fault.NetFault.TheVariants.{NoMemory};
    ghost use Rattle.std.specs.Prelude.{◌≡◌};

    ghost from_gives = { λ _ fault. fault ≡ NoMemory };

    fn from(_: AllocError) -> NetFault {
        NetFault::NoMemory
    }
}

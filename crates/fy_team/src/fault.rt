//! Why a call was refused.
use std::alloc::{AllocError, AllocFailed};

/// Why there are no members.
#[derive(Clone, Copy, PartialEq, Eq, Debug)]
pub enum MembersFault {
    /// The numbers don't rise, or there are more than 1024.
    Members,
    /// An allocation failed.
    NoMemory,
}

impl From<AllocError> for MembersFault {
    ghost use Rattle.fy_team.specs.declared.fault.MembersFault.TheVariants.{NoMemory};
    ghost use Rattle.std.specs.Prelude.{◌≡◌};

    ghost from_gives = { λ _ fault. fault ≡ NoMemory };

    fn from(_: AllocError) -> MembersFault {
        MembersFault::NoMemory
    }
}

/// Why a team wasn't formed, or a record wasn't begun. Teams and records are then as they were
/// before the call.
#[derive(Clone, Copy, PartialEq, Eq, Debug)]
pub enum TeamFault {
    /// 4096 teams, or 65,536 records, are there already.
    TooMany,
    /// There is no policy with this number.
    NoPolicy,
    /// A member is no process.
    NoProcess,
    /// A member is gone for good.
    Gone,
    /// The members don't satisfy the policy with this number.
    TeamShort { policy: u32 },
    /// There is no team with this number.
    NoTeam,
    /// The payload has more than 256 bytes.
    Payload,
    /// An allocation failed.
    NoMemory,
}

impl From<AllocError> for TeamFault {
    ghost use Rattle.fy_team.specs.declared.fault.TeamFault.TheVariants.{NoMemory};
    ghost use Rattle.std.specs.Prelude.{◌≡◌};

    ghost from_gives = { λ _ fault. fault ≡ NoMemory };

    fn from(_: AllocError) -> TeamFault {
        TeamFault::NoMemory
    }
}

impl<T: Drop> From<AllocFailed<T>> for TeamFault {
    ghost use Rattle.fy_team.specs.declared.fault.TeamFault.TheVariants.{NoMemory};
    ghost use Rattle.std.specs.Prelude.{◌≡◌};

    ghost from_gives = { λ _ fault. fault ≡ NoMemory };

    fn from(_: AllocFailed<T>) -> TeamFault {
        TeamFault::NoMemory
    }
}

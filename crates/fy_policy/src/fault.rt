//! Why a text is no policy.
use std::alloc::{AllocError, AllocFailed};

/// Why a text was not read as a policy. The first that holds is given, in this order; an allocation
/// failure can take the place of any answer.
#[derive(Clone, Copy, PartialEq, Eq, Debug)]
pub enum PolicyFault {
    /// The text has over 4096 bytes.
    TooLong,
    /// The text is none of the grammar.
    Syntax,
    /// A count is outside 1 to 1024.
    Count,
    /// The policy is over 8 deep.
    Depth,
    /// The policy has over 64 nodes.
    Nodes,
    /// An allocation for the policy failed.
    NoMemory,
}

impl From<AllocError> for PolicyFault {
    ghost use Rattle.fy_policy.specs.declared.fault.PolicyFault.TheVariants.{NoMemory};
    ghost use Rattle.std.specs.Prelude.{◌≡◌};

    ghost from_gives = { λ _ e. e ≡ NoMemory };

    fn from(_: AllocError) -> PolicyFault {
        PolicyFault::NoMemory
    }
}

impl<T: Drop> From<AllocFailed<T>> for PolicyFault {
    ghost use Rattle.fy_policy.specs.declared.fault.PolicyFault.TheVariants.{NoMemory};
    ghost use Rattle.std.specs.Prelude.{◌≡◌};

    ghost from_gives = { λ _ e. e ≡ NoMemory };

    fn from(failed: AllocFailed<T>) -> PolicyFault {
        PolicyFault::from(AllocError::from(failed))
    }
}

//! The roles of actors.
ghost use Rattle.std.specs.Prelude.{◌≡◌};
ghost use Rattle.fy_cluster.specs.Replies.{may};

use fy_acts::Act;

/// What an actor may do. Each may order kills and clogs, as far as its grants go.
#[derive(Clone, Copy, PartialEq, Eq, Debug)]
pub enum Role {
    /// Orders kills and clogs alone.
    Fault,
    /// Forms teams and changes them, begins and copies records, delivers messages, syncs, starts
    /// and heals processes, and lets time pass.
    Storage,
    /// Gives and takes grants and protections.
    Operator,
}

impl Role {
    /// Whether this role may make the act. Whether the act is refused for another reason is not
    /// asked here. Doesn't allocate.
    pub fn may(self, act: &Act) -> bool
        ensures { result ≡ may self act.now }
    {
        match act {
            Act::Kill { .. } | Act::Clog { .. } | Act::Unclog { .. } => true,
            Act::Give { .. } | Act::Take { .. } | Act::Protect { .. } | Act::Unprotect { .. } =>
                self == Role::Operator,
            Act::Form { .. }
            | Act::Begin { .. }
            | Act::Deliver { .. }
            | Act::Lose { .. }
            | Act::Resend { .. }
            | Act::Sync { .. }
            | Act::Up { .. }
            | Act::Tick { .. }
            | Act::CopyTo { .. }
            | Act::Replace { .. }
            | Act::Heal { .. } => self == Role::Storage,
        }
    }
}

//! What an actor may ask of the cluster.
ghost use Rattle.std.specs.Prelude.{◌≡◌, false, IfOk, IsOk};
ghost use Rattle.fy_acts.specs.Acts.{holds_list};

use fy_disk::Payload;
use fy_grants::Grant;
use fy_kinds::{KillOrder, KindSet, Target};
use fy_locality::ProcId;
use fy_team::Members;
use std::alloc::{AllocError, Global};

/// What an actor asks of the cluster. It may name what doesn't exist: the reply then refuses it.
#[derive(PartialEq, Eq)]
pub enum Act {
    /// Kill the processes of a target.
    Kill {
        order: KillOrder,
    },
    /// Clog the processes of a target for some ticks, at most up to the clock's end.
    Clog {
        target: Target,
        ticks: u64,
    },
    /// End the clogs of a target's processes now.
    Unclog {
        target: Target,
    },
    /// Form a team that satisfies the policy with this number.
    Form {
        members: Members,
        policy: u32,
    },
    /// Begin a record for a team: a store is sent to each member. A payload has any length here;
    /// the reply refuses one of more than 256 bytes.
    Begin {
        team: u32,
        payload: Payload,
    },
    /// Deliver the message in flight with this number.
    Deliver {
        message: u64,
    },
    /// Lose the message in flight with this number.
    Lose {
        message: u64,
    },
    /// Send a record to a member of its team once more.
    Resend {
        rec: u32,
        process: ProcId,
    },
    /// Sync what a process has written.
    Sync {
        process: ProcId,
    },
    /// Start a process that is down.
    Up {
        process: ProcId,
    },
    /// Let some ticks pass.
    Tick {
        ticks: u64,
    },
    /// Give a grant, last in its actor's list.
    Give {
        grant: Grant,
    },
    /// Take away the grant at a place (from 0) of an actor's list.
    Take {
        actor: u32,
        index: u32,
    },
    /// Add to the kinds from which a process is protected.
    Protect {
        process: ProcId,
        kinds: KindSet,
    },
    /// Take out of the kinds from which a process is protected.
    Unprotect {
        process: ProcId,
        kinds: KindSet,
    },
    /// Send a record that one process has synced to another, a member of its team or not.
    CopyTo {
        from: ProcId,
        rec: u32,
        to: ProcId,
    },
    /// Put a process into a team in the place of a member.
    Replace {
        team: u32,
        out: ProcId,
        into: ProcId,
    },
    /// Heal a destroyed process that has its records again: it no longer counts as destroyed.
    Heal {
        process: ProcId,
    },
}

// Written out and not derived: see `Drop` in docs/DECISIONS.md.
impl Drop for Act {
    fn drop(self) {
        match self {
            Act::Kill { order } => {}
            Act::Clog { target, ticks } => {}
            Act::Unclog { target } => {}
            Act::Form { members, policy } => {}
            Act::Begin { team, payload } => {}
            Act::Deliver { message } => {}
            Act::Lose { message } => {}
            Act::Resend { rec, process } => {}
            Act::Sync { process } => {}
            Act::Up { process } => {}
            Act::Tick { ticks } => {}
            Act::Give { grant } => {}
            Act::Take { actor, index } => {}
            Act::Protect { process, kinds } => {}
            Act::Unprotect { process, kinds } => {}
            Act::CopyTo { from, rec, to } => {}
            Act::Replace { team, out, into } => {}
            Act::Heal { process } => {}
        }
    }
}

impl Act {
    /// Copies the act. Only the members of a `Form` and the payload of a `Begin` are allocated.
    ///
    /// # Errors
    ///
    /// `AllocError` only if the allocation fails.
    pub fn try_copy(&self, alloc: Global) -> Result<Act, AllocError>
        ensures equal { IfOk result (λ copy. copy ≡ self.now) }
        ensures plain { holds_list self.now ≡ false → IsOk result }
    {
        let copy = match *self {
            Act::Kill { order } => Act::Kill { order },
            Act::Clog { target, ticks } => Act::Clog { target, ticks },
            Act::Unclog { target } => Act::Unclog { target },
            Act::Form {
                ref members,
                policy,
            } => {
                let members = members.try_copy(alloc)?;
                Act::Form { members, policy }
            }
            Act::Begin { team, ref payload } => {
                let payload = payload.try_copy(alloc)?;
                Act::Begin { team, payload }
            }
            Act::Deliver { message } => Act::Deliver { message },
            Act::Lose { message } => Act::Lose { message },
            Act::Resend { rec, process } => Act::Resend { rec, process },
            Act::Sync { process } => Act::Sync { process },
            Act::Up { process } => Act::Up { process },
            Act::Tick { ticks } => Act::Tick { ticks },
            Act::Give { grant } => Act::Give { grant },
            Act::Take { actor, index } => Act::Take { actor, index },
            Act::Protect { process, kinds } => Act::Protect { process, kinds },
            Act::Unprotect { process, kinds } => Act::Unprotect { process, kinds },
            Act::CopyTo { from, rec, to } => Act::CopyTo { from, rec, to },
            Act::Replace { team, out, into } => Act::Replace { team, out, into },
            Act::Heal { process } => Act::Heal { process },
        };
        Ok(copy)
    }
}

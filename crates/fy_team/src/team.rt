//! A team as it is kept.
ghost use Rattle.std.specs.Prelude.{◌≡◌, true, false};
ghost use Rattle.fy_team.specs.Teams.{is_among, with_member};

use crate::Members;
use fy_locality::{ProcId, TryCopy};
use std::alloc::{AllocError, Global};
use std::marker::Model;

/// A team: its members, and the number of its policy.
pub(crate) struct KeptTeam {
    pub(crate) members: Members,
    pub(crate) policy: u32,
}

impl Model for KeptTeam {
    ghost use Rattle.fy_team.specs.Teams.{Team};

    ghost Value = { Team };

    ghost view = { λ t. record { members = t.members; policy = t.policy } };
}

// Written out and not derived: see `Drop` in docs/DECISIONS.md.
impl Drop for KeptTeam {
    fn drop(self) {
        let KeptTeam {
            members: _,
            policy: _,
        } = self;
    }
}

impl TryCopy for KeptTeam {
    fn try_copy(&self, alloc: Global) -> Result<KeptTeam, AllocError> {
        Ok(KeptTeam {
            members: self.members.try_copy(alloc)?,
            policy: self.policy,
        })
    }
}

impl KeptTeam {
    /// Replaces a member by another process.
    pub(crate) fn replace(&mut self, out: ProcId, into: ProcId)
        requires member { is_among self.old.members out.0 ≡ true }
        requires stranger { is_among self.old.members into.0 ≡ false }
        ensures { self.new ≡ with_member out into self.old }
    {
        self.members.replace(out, into);
    }
}

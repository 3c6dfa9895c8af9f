//! The members of a team.
ghost use Rattle.std.specs.Prelude.{◌≡◌, ◌↔◌, ◌<◌, true, false, IfOk, IfErr, IsOk, IsTrue};
ghost use Rattle.std.specs.List.{AllPairs};
ghost use Rattle.fy_team.specs.Teams.{AreMembers, is_among, swapped};
ghost use Rattle.fy_team.specs.declared.fault.MembersFault.TheVariants.{NoMemory};

use crate::MembersFault;
use crate::limits::MOST_MEMBERS;
use fy_locality::ProcId;
use std::alloc::{AllocError, Global};
use std::marker::Model;

/// Processes by rising number, at most 1024 of them.
#[derive(Drop)]
pub struct Members {
    processes: Vec<ProcId>,
}

impl Model for Members {
    ghost use Rattle.std.specs.Prelude.{List};
    ghost use Rattle.fy_locality.specs.declared.ProcId.{ProcId};

    ghost Value = { List ProcId };

    ghost use Rattle.fy_team.specs.Teams.{AreMembers};

    ghost view = { λ m. m.processes.items };

    ghost invariant = { λ m. AreMembers m.processes.items };
}

impl Members {
    /// Makes members by copying these numbers, whether or not there are such processes.
    ///
    /// # Errors
    ///
    /// In order: `Members` if a number isn't above the one before it, or there are more than 1024;
    /// `NoMemory`.
    pub fn make(alloc: Global, processes: &[ProcId]) -> Result<Members, MembersFault>
        ensures refused { ¬ AreMembers processes.now → result ≡ Err MembersFault.Members }
        ensures memory { AreMembers processes.now → IfErr result (λ fault. fault ≡ NoMemory) }
        ensures made { IfOk result (λ made. made ≡ processes.now) }
    {
        if !are_members(processes) {
            return Err(MembersFault::Members);
        }
        let processes = Vec::from_slice(alloc, processes)?;
        Ok(Members { processes })
    }

    /// Makes members of these numbers without copying them.
    ///
    /// # Errors
    ///
    /// `Members` as for `make`.
    pub fn from_vec(processes: Vec<ProcId>) -> Result<Members, MembersFault>
        ensures refused { ¬ AreMembers processes.items → result ≡ Err MembersFault.Members }
        ensures accepted { AreMembers processes.items → IsOk result }
        ensures made { IfOk result (λ made. made ≡ processes.items) }
    {
        if !are_members(&processes) {
            return Err(MembersFault::Members);
        }
        Ok(Members { processes })
    }

    /// Takes the members out, by rising number, without copying them.
    pub fn into_vec(self) -> Vec<ProcId>
        ensures { result.items ≡ self }
    {
        self.processes
    }

    /// The members by rising number.
    pub fn as_slice(&self) -> &[ProcId]
        ensures members { result.now ≡ self.now }
        ensures valid { AreMembers self.now }
    {
        self.processes.as_slice()
    }

    /// Whether a process is a member.
    pub fn has(&self, p: ProcId) -> bool
        ensures { result ≡ is_among self.now p.0 }
    {
        let place = self.processes.partition_point(|member| member.0 < p.0);
        match self.processes.get(place) {
            Some(member) => member.0 == p.0,
            None => false,
        }
    }

    /// Replaces a member by another process. Doesn't allocate.
    ///
    /// `out` must be a member, and `into` must not.
    pub fn replace(&mut self, out: ProcId, into: ProcId)
        requires member { is_among self.old out.0 ≡ true }
        requires stranger { is_among self.old into.0 ≡ false }
        ensures { self.new ≡ swapped out into self.old }
    {
        self.processes.retain(|member| member.0 != out.0);
        let place = self.processes.partition_point(|member| member.0 < into.0);
        let inserted = self.processes.insert(place, into);
        // The one that left made room.
        prove!(inserted.is_ok());
    }

    /// The members rise, and are at most 1024.
    pub(crate) fn invariant(&self)
        ensures { AreMembers self.now }
    {
        let _processes = &self.processes;
    }

    /// Copies the members.
    ///
    /// # Errors
    ///
    /// `AllocError` only if the allocation fails.
    pub fn try_copy(&self, alloc: Global) -> Result<Members, AllocError>
        ensures { IfOk result (λ copy. copy ≡ self.now) }
    {
        let processes = Vec::from_slice(alloc, &self.processes)?;
        Ok(Members { processes })
    }
}

impl PartialEq for Members {
    ghost use Rattle.std.proofs.Common.{rules};
    ghost use Rattle.std.specs.Cmp.Rules.{comparing};
    ghost use Rattle.fy_team.specs.Members.{same_numbers};

    ghost eq = { same_numbers };

    ghost laws = { Prim.search (comparing, rules) };

    /// Whether both have the same members.
    fn eq(&self, other: &Members) -> bool
        ensures test { result ≡ same_numbers self.now other.now }
        ensures same { IsTrue result ↔ (self.now ≡ other.now) }
    {
        self.as_slice() == other.as_slice()
    }
}

impl Eq for Members {
    ghost use Rattle.std.proofs.Common.{rules};
    ghost use Rattle.std.specs.Cmp.Rules.{comparing};

    ghost laws = { Prim.search (comparing, rules) };
}

/// Whether these are members of a team: they are few enough, and rise.
fn are_members(processes: &[ProcId]) -> bool
    ensures { IsTrue result ↔ AreMembers processes.now }
{
    processes.len() <= MOST_MEMBERS && rise(processes)
}

/// Whether each number is more than the one before it.
fn rise(processes: &[ProcId]) -> bool
    ensures { IsTrue result ↔ AllPairs (λ p q. p.0 < q.0) processes.now }
{
    let mut low = 0u64;
    for p in processes {
        let number = u64::from(p.0);
        if number < low {
            return false;
        }
        low = number + 1;
    }
    true
}

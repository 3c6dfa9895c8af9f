//! What the running parts tell where a cluster is asked.
ghost use Rattle.std.specs.Prelude.{◌≡◌, ◌<◌, ℕ, length};
ghost use Rattle.std.specs.FinSet as sets;
ghost use Rattle.fy_cluster.specs.Setup.{Setup};
ghost use Rattle.fy_cluster.specs.History.{History, clog_ends, now};
ghost use Rattle.fy_cluster.specs.Rules.{grants};
ghost use Rattle.fy_cluster.specs.Asked.{held_by, protected_from, team_for};
ghost use Rattle.fy_cluster.specs.Standing.{Refines};

use crate::machine::Machine;
use fy_grants::Grant;
use fy_kinds::KindSet;
use fy_locality::{ProcId, ProcSet};

impl Machine {
    /// The time.
    pub(crate) fn asked_clock(&self) -> u64
        ensures { (c : Setup) (h : History) → Refines c h self.now → result ≡ now h }
    {
        self.net.now()
    }

    /// Until when the clogs of a process that is there last.
    pub(crate) fn asked_clog_end(&self, p: ProcId) -> u64
        requires { p.0 < length self.now.net.until }
        ensures { (c : Setup) (h : History) → Refines c h self.now → result ≡ clog_ends h p.0 }
    {
        self.net.asked_clog_end(p)
    }

    /// The kinds from which a process that is there is protected.
    pub(crate) fn asked_protections(&self, p: ProcId) -> KindSet
        requires { p.0 < length self.now.book.protections }
        ensures { (c : Setup) (h : History) → Refines c h self.now →
            result ≡ protected_from c h p.0 }
    {
        self.book.protections(p)
    }

    /// The grants of an actor.
    pub(crate) fn asked_grants(&self, actor: u32) -> &[Grant]
        ensures { (c : Setup) (h : History) → Refines c h self.now →
            result.now ≡ grants c h actor }
    {
        self.book.grants(actor)
    }

    /// The number of a record's team, where there is such a record.
    pub(crate) fn asked_team(&self, rec: u32) -> Option<u32>
        ensures { (c : Setup) (h : History) → Refines c h self.now → result ≡ team_for h rec }
    {
        self.teams.team_of(rec)
    }

    /// The processes that have a record synced.
    pub(crate) fn asked_holders(&self, rec: u32) -> ProcSet
        ensures { (c : Setup) (h : History) → Refines c h self.now →
            (p : ℕ) → sets.contains result p ≡ held_by c h rec p }
    {
        self.disks.holders(rec)
    }
}

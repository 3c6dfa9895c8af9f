//! Who keeps a record.
ghost use Rattle.std.specs.Prelude.{◌≡◌, List, find};
ghost use Rattle.fy_acts.specs.declared.entry.Entry.{Entry};
ghost use Rattle.fy_cluster.specs.Setup.{Setup};
ghost use Rattle.fy_cluster.specs.History.{history, keeper};
ghost use Rattle.fy_cluster.specs.Standing.{RefinesJournal};
ghost use Rattle.fy_cluster.specs.Sights.{keeps_on};

use crate::machine::Machine;
use fy_locality::ProcId;

impl Machine {
    /// Whether a process isn't destroyed and has a record synced.
    fn keeps(&self, rec: u32, p: ProcId) -> bool
        ensures { result ≡ keeps_on self.now rec p.0 }
    {
        !self.dead.destroyed().contains(p) && self.disks.has_synced(rec, p)
    }

    /// The first of these processes that isn't destroyed and has a record synced.
    fn first_keeper(&self, rec: u32, processes: &[ProcId]) -> Option<ProcId>
        ensures { result ≡ find (λ p. keeps_on self.now rec p.0) processes.now }
    {
        processes.iter().copied().find(|p| self.keeps(rec, *p))
    }

    /// The least member of an acknowledged record's team that isn't destroyed and has the record
    /// synced.
    pub(crate) fn keeper(&self, rec: u32) -> Option<ProcId>
        ensures { (c : Setup) (journal : List Entry) → RefinesJournal c journal self.now →
            result ≡ keeper c (history c journal) rec }
    {
        fy_policy::laws::test_is_satisfaction();
        fy_grants::laws::least_is_first_found();
        if !self.teams.acked(rec) {
            return None;
        }
        self.teams.invariant();
        let Some(team) = self.teams.team_of(rec) else {
            unreachable!();
        };
        let Some(members) = self.teams.members(team) else {
            unreachable!();
        };
        self.first_keeper(rec, members.as_slice())
    }
}

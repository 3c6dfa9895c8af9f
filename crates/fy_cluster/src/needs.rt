//! Which acknowledged records a process still needs.
ghost use Rattle.std.specs.Prelude.{◌≡◌, ◌<◌, ◌&&◌, length};
ghost use Rattle.fy_cluster.specs.Setup.{Setup};
ghost use Rattle.fy_cluster.specs.History.{History};
ghost use Rattle.fy_cluster.specs.Standing.{Refines};
ghost use Rattle.fy_cluster.specs.Sights.{needed_at};
ghost use Rattle.fy_cluster.specs.Needs.{is_of_team_on, is_in_team_on, is_member_on, needed_on, first_needed_on, earlier};

use crate::machine::Machine;
use fy_locality::ProcId;

/// The lesser of two records, or the one that is there.
fn earlier(one: Option<u32>, other: Option<u32>) -> Option<u32>
    ensures { result ≡ earlier one other }
{
    match (one, other) {
        (Some(a), Some(b)) => Some(a.min(b)),
        (Some(a), None) => Some(a),
        (None, b) => b,
    }
}

impl Machine {
    /// Whether a process is a member of the team with a number.
    fn is_member_of(&self, p: ProcId, team: u32) -> bool
        ensures { result ≡ is_in_team_on self.now p.0 team }
    {
        self.teams.is_member(team, p)
    }

    /// Of these records, the first acknowledged one that a process hasn't synced.
    fn first_needed(&self, p: ProcId, records: &[u32]) -> Option<u32>
        ensures { result ≡ first_needed_on self.now p.0 records.now }
    {
        records.iter().copied().find(|rec| self.teams.acked(*rec)
            && !self.disks.has_synced(*rec, p))
    }

    /// Of a team's records, the least acknowledged one that a process hasn't synced.
    pub(crate) fn needed_of_team(&self, p: ProcId, team: u32) -> Option<u32>
        ensures { result ≡ needed_on self.now p.0 (is_of_team_on self.now team) }
    {
        self.first_needed(p, self.teams.records_of(team))
    }

    /// The same, where the process is a member of the team.
    fn needed_as_member(&self, p: ProcId, team: u32) -> Option<u32>
        ensures { result ≡ needed_on self.now p.0
            (λ rec. is_in_team_on self.now p.0 team && is_of_team_on self.now team rec) }
    {
        if self.is_member_of(p, team) {
            self.needed_of_team(p, team)
        } else {
            None
        }
    }

    /// Of the records of a process's teams, the least acknowledged one that it hasn't synced.
    pub(crate) fn needed_by_member(&self, p: ProcId) -> Option<u32>
        ensures { result ≡ needed_on self.now p.0 (is_member_on self.now p.0) }
    {
        let mut least = None;
        for team in 0..self.teams.team_count() {
            least = earlier(least, self.needed_as_member(p, team));
        }
        least
    }

    /// Of the records of the teams of a process that is there, the least acknowledged one that it
    /// hasn't synced.
    pub(crate) fn needed(&self, p: ProcId) -> Option<u32>
        ensures { (c : Setup) (h : History) → Refines c h self.now → p.0 < length c.processes
            → result ≡ needed_at h p.0 }
    {
        self.needed_by_member(p)
    }
}

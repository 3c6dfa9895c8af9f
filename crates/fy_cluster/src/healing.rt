//! The act Heal: a process that has its teams' acknowledged records again is destroyed no longer.
ghost use Rattle.std.specs.Prelude.{◌≡◌};
ghost use Rattle.fy_acts.specs.declared.act.Act.TheVariants.{Heal};
ghost use Rattle.fy_cluster.specs.Standing.{Point, Refines, StepsTo};

use crate::machine::Machine;
use fy_acts::{Refusal, Reply};
use fy_locality::{Map, ProcId};

impl Machine {
    /// Records that a destroyed process is healed: it has every acknowledged record of its teams
    /// again. Its acknowledgements in flight and its marks for records that aren't acknowledged
    /// speak of what its disk had before, so they are removed.
    pub(crate) fn heal(&mut self, map: &Map, process: ProcId) -> Reply
        ghost point: { Point }
        requires stands { Refines point.setup point.before self.old }
        requires map { map.now ≡ point.setup.processes }
        ensures { StepsTo point (Heal process) result self.new }
    {
        fy_team::laws::a_heal_takes_marks_off();
        if process.0 >= map.len() {
            return Reply::No(Refusal::NoProcess);
        }
        if !self.dead.left().contains(process) {
            return Reply::No(Refusal::Gone);
        }
        if !self.dead.destroyed().contains(process) {
            return Reply::No(Refusal::NotDestroyed);
        }
        if !self.up.contains(process) {
            return Reply::No(Refusal::NotUp);
        }
        if let Some(rec) = self.needed_by_member(process) {
            return Reply::No(Refusal::StillNeeds { rec });
        }
        self.dead.heal(process);
        self.net.void(process);
        self.teams.heal(process);
        Reply::Done
    }
}

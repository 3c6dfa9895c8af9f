//! The act Up: a process starts.
ghost use Rattle.std.specs.Prelude.{◌≡◌};
ghost use Rattle.fy_acts.specs.declared.act.Act.TheVariants.{Up};
ghost use Rattle.fy_cluster.specs.Standing.{Point, Refines, StepsTo};

use crate::machine::Machine;
use fy_acts::{Refusal, Reply};
use fy_locality::{Map, ProcId};

impl Machine {
    /// Starts a process that is down.
    pub(crate) fn start(&mut self, map: &Map, process: ProcId) -> Reply
        ghost point: { Point }
        requires stands { Refines point.setup point.before self.old }
        requires map { map.now ≡ point.setup.processes }
        ensures { StepsTo point (Up process) result self.new }
    {
        if process.0 >= map.len() {
            return Reply::No(Refusal::NoProcess);
        }
        if !self.dead.left().contains(process) {
            return Reply::No(Refusal::Gone);
        }
        if self.up.contains(process) {
            return Reply::No(Refusal::IsUp);
        }
        self.up.put(process);
        Reply::Done
    }
}

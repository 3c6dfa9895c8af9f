//! The act Tick: time passes, up to the clock's end.
ghost use Rattle.fy_acts.specs.declared.act.Act.TheVariants.{Tick};
ghost use Rattle.fy_cluster.specs.Standing.{Point, Refines, StepsTo};

use crate::machine::Machine;
use fy_acts::{Refusal, Reply};

impl Machine {
    /// Lets some ticks pass.
    pub(crate) fn tick(&mut self, ticks: u64) -> Reply
        ghost point: { Point }
        requires { Refines point.setup point.before self.old }
        ensures { StepsTo point (Tick ticks) result self.new }
    {
        match self.net.advance(ticks) {
            Ok(now) => Reply::Time { now },
            Err(_) => Reply::No(Refusal::ClockEnd),
        }
    }
}

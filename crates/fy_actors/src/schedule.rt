//! Acts that are made one a turn.
ghost use Rattle.std.specs.Prelude.{◌≡◌};
ghost use Rattle.fy_actors.specs.Schedules.{begun, FollowsSchedule};
ghost use Rattle.fy_actors.specs.Desk.{Worked};
ghost use Rattle.fy_actors.specs.Parts.{PlaysTurn};
ghost use Rattle.fy_actors.specs.Parts.Part.{Acts};

use crate::{Desk, FaultActor, Turn};
use fy_acts::Act;
use fy_cluster::Fault;
use std::alloc::Global;
use std::marker::Model;

/// An actor whose acts are known from the start: acts in the order in which they are made, one a
/// turn, and how many were made.
pub struct Schedule {
    alloc: Global,
    acts: Vec<Act>,
    made: usize,
}

impl Model for Schedule {
    ghost use Rattle.std.specs.Coded.{codes};
    ghost use Rattle.fy_actors.specs.Schedules.{Schedule};

    ghost Value = { Schedule };

    ghost view = { λ a. record { acts = a.acts.items; made = a.made } };
}

// Written out and not derived: see `Drop` in docs/DECISIONS.md.
impl Drop for Schedule {
    fn drop(self) {
        let Schedule {
            alloc: _,
            acts: _,
            made: _,
        } = self;
    }
}

impl Schedule {
    /// A schedule of these acts, none of which was made yet.
    pub(crate) fn begin(alloc: Global, acts: Vec<Act>) -> Schedule
        ensures { result ≡ begun acts.items }
    {
        Schedule {
            alloc,
            acts,
            made: 0,
        }
    }
}

impl FaultActor for Schedule {
    ghost use Rattle.fy_actors.specs.Parts.Part.{Acts as Playing};

    ghost part = { λ schedule. Playing schedule };

    /// Makes the act that comes next. After a fault it is still the next one.
    fn turn(&mut self, desk: &mut Desk) -> Result<Turn, Fault>
        ensures turn { FollowsSchedule (self.old, desk.old) (self.new, desk.new) result }
        ensures plays { PlaysTurn (Acts self.old, desk.old) (Acts self.new, desk.new) result }
        ensures worked { Worked desk.old desk.new }
    {
        let Some(act) = self.acts.get(self.made) else {
            return Ok(Turn::Ended);
        };
        if desk.is_full() {
            return Err(Fault::JournalFull);
        }
        let act = act.try_copy(self.alloc)?;
        desk.act(act)?;
        self.made += 1;
        Ok(if self.made < self.acts.len() {
            Turn::More
        } else {
            Turn::Ended
        })
    }
}

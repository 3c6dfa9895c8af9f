//! Who plays an actor of a swarm, at a desk.
use fy_actors::{Desk, FaultActor, Schedule, StorageDriver, Turn};
use fy_cluster::Fault;

/// Who plays an actor.
#[derive(Drop)]
pub enum Player {
    /// Forms a team of all processes, stores four payloads there and moves data.
    Stores(StorageDriver),
    /// Clogs processes and frees them again.
    Swizzles(Schedule),
    /// Kills machines.
    Kills(Schedule),
}

// One type of all players, so that whatever the role the part of a boxed one is known.
impl FaultActor for Player {
    ghost use Rattle.fy_swarm.specs.Swarm.{part_of};

    ghost part = { part_of };

    fn turn(&mut self, desk: &mut Desk) -> Result<Turn, Fault> {
        match self {
            Player::Stores(driver) => driver.turn(desk),
            Player::Swizzles(schedule) => schedule.turn(desk),
            Player::Kills(schedule) => schedule.turn(desk),
        }
    }
}

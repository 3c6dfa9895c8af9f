//! What there is to do next.
ghost use Rattle.fy_cluster.specs.Setup.{Setup};
ghost use Rattle.fy_cluster.specs.History.{History};
ghost use Rattle.fy_cluster.specs.Standing.{Refines};
ghost use Rattle.fy_cluster.specs.Sights.{Sees};

use crate::machine::Machine;
use fy_locality::ProcId;

/// The time, and what the storage actor can do next.
#[derive(Clone, Copy, PartialEq, Eq, Debug)]
pub struct Sight {
    /// The time, in ticks.
    pub now: u64,
    /// The least message that a `Deliver` would accept now.
    pub deliverable: Option<u64>,
    /// The least process that is up and has writes which it has not synced.
    pub unsynced: Option<ProcId>,
    /// The least process that is neither up nor gone.
    pub sleeping: Option<ProcId>,
}

impl Machine {
    /// What there is to do next. Doesn't allocate.
    pub(crate) fn sight(&self) -> Sight
        ensures { (c : Setup) (h : History) → Refines c h self.now → Sees c h result }
    {
        self.net.invariant();
        Sight {
            now: self.net.now(),
            deliverable: self.net.first_free(&self.up),
            unsynced: self.disks.with_unsynced().intersection(&self.up).least(),
            sleeping: self.dead.left().difference(&self.up).least(),
        }
    }
}

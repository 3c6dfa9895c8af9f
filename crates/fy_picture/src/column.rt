//! A column of a picture.
ghost use Rattle.std.specs.Prelude.{◌≡◌, ◌<◌, length};
ghost use Rattle.fy_cluster.specs.Execution.{history_of};
ghost use Rattle.fy_cluster.specs.History.{History};
ghost use Rattle.fy_cluster.specs.Setup.{Setup};
ghost use Rattle.fy_cluster.specs.Sights.{status_at};
ghost use Rattle.fy_picture.specs.Columns.{AreStates};

use fy_cluster::{ClusterState, Status};
use fy_locality::{ProcId, ProcSet};

/// The processes of a cluster by their states.
#[derive(Clone, Copy)]
pub struct States {
    /// Those that run.
    pub up: ProcSet,
    /// Those whose messages are held back.
    pub clogged: ProcSet,
    /// Those that were struck by a kind that destroys, and not healed since.
    pub destroyed: ProcSet,
    /// Those that weren't killed for good.
    pub left: ProcSet,
}

/// What a picture shows of a cluster after some entries.
#[derive(Drop)]
pub struct Column {
    /// How many entries these are.
    pub end: u32,
    /// The processes by their states.
    pub states: States,
    /// For each policy, by its place, how many processes that are left and not destroyed could each
    /// be killed for good next, as far as this policy goes.
    pub counts: Vec<u32>,
}

impl States {
    /// The state of a process that is there.
    pub fn status(&self, p: ProcId) -> Status
        ensures { (setup : Setup) (history : History) → AreStates setup history self.now
            → p.0 < length setup.processes → result ≡ status_at history p.0 }
    {
        Status {
            up: self.up.contains(p),
            clogged: self.clogged.contains(p),
            destroyed: self.destroyed.contains(p),
            gone: !self.left.contains(p),
        }
    }
}

/// The processes of a cluster by their states.
pub(crate) fn states_of(cluster: &ClusterState) -> States
    ensures { AreStates cluster.now.setup (history_of cluster.now) result }
{
    States {
        up: cluster.up(),
        clogged: cluster.clogged(),
        destroyed: cluster.destroyed(),
        left: cluster.left(),
    }
}

//! The state of a process.
ghost use Rattle.std.specs.Prelude.{◌≡◌, ◌<◌, length};
ghost use Rattle.fy_cluster.specs.Setup.{Setup};
ghost use Rattle.fy_cluster.specs.History.{History};
ghost use Rattle.fy_cluster.specs.Standing.{Refines};
ghost use Rattle.fy_cluster.specs.Sights.{status_at};

use crate::machine::Machine;
use fy_locality::ProcId;

/// The state of a process.
#[derive(Clone, Copy, PartialEq, Eq, Debug)]
pub struct Status {
    /// The process runs.
    pub up: bool,
    /// The process's messages are held back.
    pub clogged: bool,
    /// The process was struck by a kind that destroys, and not healed since.
    pub destroyed: bool,
    /// The process was killed for good.
    pub gone: bool,
}

impl Machine {
    /// The state of a process that is there.
    pub(crate) fn status(&self, p: ProcId) -> Status
        requires { p.0 < length self.now.net.until }
        ensures { (c : Setup) (h : History) → Refines c h self.now → result ≡ status_at h p.0 }
    {
        Status {
            up: self.up.contains(p),
            clogged: self.net.clogged(p),
            destroyed: self.dead.destroyed().contains(p),
            gone: !self.dead.left().contains(p),
        }
    }
}

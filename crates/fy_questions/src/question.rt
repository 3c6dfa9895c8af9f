//! What may be asked.
use fy_kinds::{KillOrder, Target};
use fy_locality::ProcId;

/// An act that may be judged before it is made.
#[derive(Clone, Copy, PartialEq, Eq)]
pub enum Attempt {
    /// To kill the processes of a target.
    Kill { order: KillOrder },
    /// To clog the processes of a target for some ticks.
    Clog { target: Target, ticks: u64 },
}

/// A question to a cluster. It may name what doesn't exist: that is told then.
#[derive(Clone, Copy, PartialEq, Eq)]
pub enum Question {
    /// What the act would be replied now, by the actor with this number.
    Judge { by: u32, attempt: Attempt },
    /// By which kinds the actor with this number may kill each process.
    Killable { by: u32 },
    /// What has become of each process.
    States,
    /// What has become of one process.
    State { process: ProcId },
    /// What the cluster consists of.
    Cluster,
    /// Which processes a target names now.
    Targets { target: Target },
    /// What has become of the record with this number.
    Record { rec: u32 },
    /// Which record a process still needs before it may be healed.
    Needed { process: ProcId },
    /// The time, and what there is to do next.
    Sight,
    /// How much may still be lost.
    Bears,
}

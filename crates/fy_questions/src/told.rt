//! What is told.
use fy_acts::Reply;
use fy_cluster::{Config, Sight, Status};
use fy_grants::Grant;
use fy_kinds::{Kind, KindSet};
use fy_locality::{ProcId, ProcSet};
use fy_tolerance::{Findings, LossesSoFar};

/// What a question names that isn't there.
#[derive(Clone, Copy, PartialEq, Eq, Debug)]
pub enum Missing {
    Actor,
    Process,
    Record,
}

/// What has become of a process.
#[derive(Clone, Copy, PartialEq, Eq, Debug)]
pub struct ProcessState {
    /// Whether it is up, clogged, destroyed and gone.
    pub status: Status,
    /// Until when it is clogged, where it is.
    pub clogged_until: Option<u64>,
    /// The kinds from which it is protected.
    pub protected: KindSet,
}

/// What has become of a record.
#[derive(Clone, Copy)]
pub struct RecordState {
    /// The number of its team.
    pub team: u32,
    /// It is acknowledged.
    pub acked: bool,
    /// The processes that have it synced.
    pub synced: ProcSet,
    /// Once it is acknowledged, the least member of its team that keeps it.
    pub keeper: Option<ProcId>,
}

/// What the cluster consists of: what its cluster file says, and the rights as they are now.
#[derive(Drop)]
pub struct ClusterNow<'a> {
    /// What it was made of.
    pub config: &'a Config,
    /// The grants of each actor.
    pub grants: Vec<&'a [Grant]>,
    /// How many entries the journal has.
    pub entries: usize,
}

/// What was lost so far, and how much may be lost from there on.
#[derive(Drop)]
pub struct Bearing {
    pub before: LossesSoFar,
    pub findings: Findings,
}

/// What is told to a question.
#[derive(Drop)]
pub enum Told<'a> {
    /// What the question names isn't there.
    No(Missing),
    /// The reply that the act would get now.
    Judged { reply: Reply },
    /// Of each process the hardest kind by which a kill of it alone would strike now.
    Killable { kinds: Vec<Option<Kind>> },
    /// The time, and the state of each process.
    States { now: u64, states: Vec<ProcessState> },
    /// The time, and the state of one process.
    State { now: u64, state: ProcessState },
    /// What the cluster consists of.
    Cluster(ClusterNow<'a>),
    /// The processes that the target names.
    Targets { processes: ProcSet },
    /// What has become of the record.
    Record(RecordState),
    /// The least acknowledged record of its teams that the process hasn't synced.
    Needed { rec: Option<u32> },
    /// The time, and what there is to do next.
    Sight(Sight),
    /// How much may still be lost.
    Bears(Bearing),
}

//! What is told of processes.
ghost use Rattle.std.specs.Prelude.{◌≡◌, ◌<◌, IfOk, length, map};
ghost use Rattle.std.specs.List.{range_with_len};
ghost use Rattle.fy_questions.specs.Told.{IsTold, clogged_until, hardest_on, is_clogged_in, state_of, struck_in};
ghost use Rattle.fy_questions.specs.declared.question.Question.TheVariants.{Killable, State, States, Targets, Needed};

use crate::told::{Missing, ProcessState, Told};
use fy_acts::Reply;
use fy_cluster::ClusterState;
use fy_kinds::{Kind, Target};
use fy_locality::{Key, ProcId};
use std::alloc::{AllocError, Global};

/// The kind that struck, by the reply to a kill.
fn struck_in(reply: Reply) -> Option<Kind>
    ensures { result ≡ struck_in reply }
{
    match reply {
        Reply::Verdict(verdict) => verdict.struck,
        _ => None,
    }
}

/// The hardest kind by which a kill of one process by an actor would strike now.
fn hardest_on(cluster: &ClusterState, by: u32, process: ProcId) -> Option<Kind>
    requires { process.0 < length cluster.now.setup.processes }
    ensures { result ≡ hardest_on cluster.now by process.0 }
{
    // Each process has a name. No verdict needs it: it is for the definition, which kills by it.
    let _name = cluster.config().map().value(process, Key::Process)?;
    let reply = cluster.judge_process(by, process, Kind::KillInstantly, Kind::RebootProcess)?;
    struck_in(reply)
}

/// Of each process the hardest kind by which a kill of it would strike now.
fn hardest(alloc: Global, cluster: &ClusterState, by: u32) -> Result<Vec<Option<Kind>>, AllocError>
    ensures { IfOk result (λ kinds. kinds.items
        ≡ map (hardest_on cluster.now by)
        (range_with_len 0 (length cluster.now.setup.processes))) }
{
    let mut kinds = Vec::new(alloc);
    for p in 0..cluster.config().map().len() {
        kinds.push(hardest_on(cluster, by, ProcId(p)))?;
    }
    Ok(kinds)
}

/// What is told to `killable`.
pub(crate) fn killable<'a>(
    alloc: Global,
    cluster: &ClusterState,
    by: u32,
) -> Result<Told<'a>, AllocError>
    ensures { IfOk result (IsTold cluster.now (Killable by)) }
{
    if by >= cluster.config().actors() {
        return Ok(Told::No(Missing::Actor));
    }
    let kinds = hardest(alloc, cluster, by)?;
    Ok(Told::Killable { kinds })
}

/// Until when a process is clogged, where it is.
fn clogged_until(cluster: &ClusterState, process: ProcId, clogged: bool) -> Option<u64>
    requires there { process.0 < length cluster.now.setup.processes }
    requires clogged { clogged ≡ is_clogged_in cluster.now process.0 }
    ensures { result ≡ clogged_until cluster.now process.0 }
{
    if clogged {
        Some(cluster.asked_clog_end(process))
    } else {
        None
    }
}

/// The state of a process that is there.
fn state_of(cluster: &ClusterState, process: ProcId) -> ProcessState
    requires { process.0 < length cluster.now.setup.processes }
    ensures { result ≡ state_of cluster.now process.0 }
{
    let Some(status) = cluster.status(process) else {
        unreachable!();
    };
    ProcessState {
        status,
        clogged_until: clogged_until(cluster, process, status.clogged),
        protected: cluster.asked_protections(process),
    }
}

/// The state of each process.
fn states_of(alloc: Global, cluster: &ClusterState) -> Result<Vec<ProcessState>, AllocError>
    ensures { IfOk result (λ states. states.items
        ≡ map (state_of cluster.now) (range_with_len 0 (length cluster.now.setup.processes))) }
{
    let mut states = Vec::new(alloc);
    for p in 0..cluster.config().map().len() {
        states.push(state_of(cluster, ProcId(p)))?;
    }
    Ok(states)
}

/// What is told to `state`, of all processes.
pub(crate) fn states<'a>(alloc: Global, cluster: &ClusterState) -> Result<Told<'a>, AllocError>
    ensures { IfOk result (IsTold cluster.now States) }
{
    let states = states_of(alloc, cluster)?;
    Ok(Told::States {
        now: cluster.asked_clock(),
        states,
    })
}

/// What is told to `state`, of one process.
pub(crate) fn state<'a>(cluster: &ClusterState, process: ProcId) -> Told<'a>
    ensures { IsTold cluster.now (State process) result }
{
    if process.0 >= cluster.config().map().len() {
        return Told::No(Missing::Process);
    }
    Told::State {
        now: cluster.asked_clock(),
        state: state_of(cluster, process),
    }
}

/// What is told to `targets`.
pub(crate) fn targets<'a>(cluster: &ClusterState, target: &Target) -> Told<'a>
    ensures { IsTold cluster.now (Targets target.now) result }
{
    let members = cluster.config().map().members(target.key, &target.value);
    Told::Targets {
        processes: cluster.left().intersection(&members),
    }
}

/// What is told to `needed`.
pub(crate) fn needed<'a>(cluster: &ClusterState, process: ProcId) -> Told<'a>
    ensures { IsTold cluster.now (Needed process) result }
{
    if process.0 >= cluster.config().map().len() {
        return Told::No(Missing::Process);
    }
    Told::Needed {
        rec: cluster.needed(process),
    }
}

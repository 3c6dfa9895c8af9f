//! What is told to each question.
ghost use Rattle.std.specs.Prelude.{◌≡◌, IfOk, length, map};
ghost use Rattle.std.specs.List.{range_with_len};
ghost use Rattle.fy_cluster.specs.Asked.{grants_in};
ghost use Rattle.fy_cluster.specs.Execution.{replied};
ghost use Rattle.fy_questions.specs.Told.{IsTold, act_of};
ghost use Rattle.fy_questions.specs.declared.question.Question.TheVariants.{Bears, Cluster, Record};

use crate::bearing::bearing_of;
use crate::question::{Attempt, Question};
use crate::states::{killable, needed, state, states, targets};
use crate::told::{ClusterNow, Missing, RecordState, Told};
use fy_acts::Reply;
use fy_cluster::ClusterState;
use fy_grants::Grant;
use std::alloc::{AllocError, Global};

/// The reply that an act would get now.
fn judged(cluster: &ClusterState, by: u32, attempt: &Attempt) -> Reply
    ensures { result ≡ replied cluster.now by (act_of attempt.now) }
{
    match attempt {
        Attempt::Kill { order } => cluster.judge(by, order),
        Attempt::Clog { target, .. } => cluster.asked_clog(by, target),
    }
}

/// The grants of each actor.
fn grants_of(alloc: Global, cluster: &ClusterState) -> Result<Vec<&[Grant]>, AllocError>
    ensures { IfOk result (λ grants. map (λ own. own.now) grants.items
        ≡ map (grants_in cluster.now) (range_with_len 0 (length cluster.now.setup.roles))) }
{
    let mut grants = Vec::new(alloc);
    for actor in 0..cluster.config().actors() {
        grants.push(cluster.asked_grants(actor))?;
    }
    Ok(grants)
}

/// What is told to `cluster`.
fn cluster_now(alloc: Global, cluster: &ClusterState) -> Result<Told<'_>, AllocError>
    ensures { IfOk result (IsTold cluster.now Cluster) }
{
    Ok(Told::Cluster(ClusterNow {
        config: cluster.config(),
        grants: grants_of(alloc, cluster)?,
        entries: cluster.asked_entries(),
    }))
}

/// What is told to `record`.
fn record_state<'a>(cluster: &ClusterState, rec: u32) -> Told<'a>
    ensures { IsTold cluster.now (Record rec) result }
{
    let Some(team) = cluster.asked_team(rec) else {
        return Told::No(Missing::Record);
    };
    let keeper = cluster.keeper(rec);
    Told::Record(RecordState {
        team,
        acked: keeper.is_some(),
        synced: cluster.asked_holders(rec),
        keeper,
    })
}

/// What is told to `bears`.
fn bears<'a>(alloc: Global, cluster: &ClusterState) -> Result<Told<'a>, AllocError>
    ensures { IfOk result (IsTold cluster.now Bears) }
{
    let bearing = bearing_of(alloc, cluster)?;
    Ok(Told::Bears(bearing))
}

/// What is told to a question. The cluster stays as it is, and so does its journal, be it full or
/// not.
///
/// # Errors
///
/// `AllocError` where an allocation fails.
pub fn answer<'a>(
    alloc: Global,
    cluster: &'a ClusterState,
    question: &Question,
) -> Result<Told<'a>, AllocError>
    ensures { IfOk result (IsTold cluster.now question.now) }
{
    match question {
        Question::Judge { by, attempt } => Ok(Told::Judged {
            reply: judged(cluster, *by, attempt),
        }),
        Question::Killable { by } => killable(alloc, cluster, *by),
        Question::States => states(alloc, cluster),
        Question::State { process } => Ok(state(cluster, *process)),
        Question::Cluster => cluster_now(alloc, cluster),
        Question::Targets { target } => Ok(targets(cluster, target)),
        Question::Record { rec } => Ok(record_state(cluster, *rec)),
        Question::Needed { process } => Ok(needed(cluster, *process)),
        Question::Sight => Ok(Told::Sight(cluster.sight())),
        Question::Bears => bears(alloc, cluster),
    }
}

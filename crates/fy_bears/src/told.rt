//! What `bears` tells: a value that is proved, from which the text is written.
ghost use Rattle.std.specs.Prelude.{◌≡◌, ℕ, List, None, IfOk, IfErr};
ghost use Rattle.fy_bears.specs.BearsTexts.{AreLosses, IsBookOf, IsToldAfter, IsToldAtStart, IsToldOf};
ghost use Rattle.fy_check.specs.Checked.{IsReplayed};
ghost use Rattle.fy_cluster.specs.Execution.{history_of};
ghost use Rattle.fy_cluster.specs.Setup.{Setup};

use crate::lost::losses_in;
use fy_check::ReplayedAudit;
use fy_cluster::{ClusterState, Config};
use fy_decide::{DeadBook, MakeFault};
use fy_policy::Policy;
use fy_streams::Stop;
use fy_tolerance::{Findings, LossesSoFar, book_of, findings_of, laws};
use fy_votes::{Forgetting, forgettings_by_each};
use std::alloc::Global;

/// The losses so far, after an audit alone, what is borne from there on, and by each policy of
/// elections, and each of writes, what may forget.
#[derive(Drop)]
pub struct Told {
    pub before: Option<LossesSoFar>,
    pub findings: Findings,
    pub forgetting: Vec<Option<Vec<Forgetting>>>,
}

/// What is told of a cluster at its start.
///
/// # Errors
///
/// `NoMemory`.
pub(crate) fn told_at_start(
    alloc: Global,
    config: &Config,
    elections: &[Policy],
) -> Result<Told, Stop>
    ensures told { IfOk result (IsToldAtStart config.now elections.now) }
    ensures memory { IfErr result (λ stop. stop ≡ Stop.NoMemory) }
{
    let (map, policies) = (config.map(), config.policies());
    // All processes of a configuration satisfy its policies, so only an allocation can fail.
    let Ok(dead) = DeadBook::make(alloc, map, policies) else {
        return Err(Stop::NoMemory);
    };
    let findings = findings_of(alloc, &dead, map, policies)?;
    let forgetting = forgettings_by_each(alloc, &dead, map, policies, elections)?;
    Ok(Told {
        before: None,
        findings,
        forgetting,
    })
}

/// The dead book of a cluster: exactly its destroyed, and those left.
///
/// # Errors
///
/// The faults of `DeadBook::make`, of which only the allocation failure occurs.
fn book_in(
    alloc: Global,
    cluster: &ClusterState,
    losses: &LossesSoFar,
) -> Result<DeadBook, MakeFault>
    requires { AreLosses cluster.now.setup (history_of cluster.now) losses.now }
    ensures { IfOk result (IsBookOf cluster.now.setup (history_of cluster.now)) }
{
    laws::nothing_is_dropped();
    cluster.survives();
    let config = cluster.config();
    let dead = book_of(alloc, config.map(), config.policies(), losses)?;
    Ok(dead)
}

/// What is told of a cluster now.
///
/// # Errors
///
/// `NoMemory`.
fn told_of(alloc: Global, cluster: &ClusterState, elections: &[Policy]) -> Result<Told, Stop>
    ensures told { IfOk result
        (IsToldAfter cluster.now.setup elections.now (history_of cluster.now)) }
    ensures memory { IfErr result (λ stop. stop ≡ Stop.NoMemory) }
{
    let losses = losses_in(cluster);
    // A cluster survives its losses, so only an allocation can fail here too.
    let Ok(dead) = book_in(alloc, cluster, &losses) else {
        return Err(Stop::NoMemory);
    };
    let config = cluster.config();
    let (map, policies) = (config.map(), config.policies());
    let findings = findings_of(alloc, &dead, map, policies)?;
    let forgetting = forgettings_by_each(alloc, &dead, map, policies, elections)?;
    Ok(Told {
        before: Some(losses),
        findings,
        forgetting,
    })
}

/// What is told after the entries of a legal audit.
///
/// # Errors
///
/// `NoMemory`.
pub(crate) fn told_after(
    alloc: Global,
    audit: &ReplayedAudit,
    elections: &[Policy],
) -> Result<Told, Stop>
    ensures told { IfOk result (λ told. (setup : Setup) (bytes : List ℕ)
        → IsReplayed setup bytes audit.now
        → audit.now.replayer.first_bad ≡ None → IsToldOf setup elections.now bytes told) }
    ensures memory { IfErr result (λ stop. stop ≡ Stop.NoMemory) }
{
    told_of(alloc, audit.replayer.cluster(), elections)
}

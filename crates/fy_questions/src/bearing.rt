//! How much may still be lost.
ghost use Rattle.std.specs.Prelude.{IfOk};
ghost use Rattle.fy_cluster.specs.Execution.{history_of};
ghost use Rattle.fy_questions.specs.Bearings.{AreLossesNow, HasLostSoFar, IsBearing};

use crate::told::Bearing;
use fy_cluster::ClusterState;
use fy_decide::{DeadBook, MakeFault};
use fy_tolerance::{LossesSoFar, book_of, findings_of, laws};
use std::alloc::{AllocError, Global};

/// Who is lost in a cluster now: destroyed, gone, and neither up nor gone.
fn losses_now(cluster: &ClusterState) -> LossesSoFar
    ensures { AreLossesNow cluster.now.setup (history_of cluster.now) result }
{
    let left = cluster.left();
    LossesSoFar {
        destroyed: cluster.destroyed(),
        gone: cluster.config().map().everyone().difference(&left),
        down: left.difference(&cluster.up()),
    }
}

/// The dead book of a cluster: exactly its destroyed, and those left.
///
/// # Errors
///
/// The faults of `DeadBook::make`, of which only the allocation failure occurs.
fn book_now(
    alloc: Global,
    cluster: &ClusterState,
    losses: &LossesSoFar,
) -> Result<DeadBook, MakeFault>
    requires { AreLossesNow cluster.now.setup (history_of cluster.now) losses.now }
    ensures { IfOk result (HasLostSoFar cluster.now.setup (history_of cluster.now)) }
{
    laws::nothing_is_dropped();
    cluster.survives();
    let config = cluster.config();
    let dead = book_of(alloc, config.map(), config.policies(), losses)?;
    Ok(dead)
}

/// How much may still be lost of a cluster.
///
/// # Errors
///
/// `AllocError` where an allocation fails.
pub(crate) fn bearing_of(alloc: Global, cluster: &ClusterState) -> Result<Bearing, AllocError>
    ensures { IfOk result (IsBearing cluster.now.setup (history_of cluster.now)) }
{
    let before = losses_now(cluster);
    // A cluster survives its losses, so only an allocation can fail.
    let Ok(dead) = book_now(alloc, cluster, &before) else {
        return Err(AllocError);
    };
    let config = cluster.config();
    let findings = findings_of(alloc, &dead, config.map(), config.policies())?;
    Ok(Bearing { before, findings })
}

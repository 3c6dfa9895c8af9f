//! Who is destroyed, gone and down in a cluster.
ghost use Rattle.fy_cluster.specs.Execution.{history_of};
ghost use Rattle.fy_bears.specs.BearsTexts.{AreLosses};

use fy_cluster::ClusterState;
use fy_tolerance::LossesSoFar;

/// Who is lost in a cluster now: destroyed, gone, and neither up nor gone.
pub fn losses_in(cluster: &ClusterState) -> LossesSoFar
    ensures { AreLosses cluster.now.setup (history_of cluster.now) result }
{
    let left = cluster.left();
    LossesSoFar {
        destroyed: cluster.destroyed(),
        gone: cluster.config().map().everyone().difference(&left),
        down: left.difference(&cluster.up()),
    }
}

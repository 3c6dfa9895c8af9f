//! Which processes the target of an act names.
ghost use Rattle.std.specs.Prelude.{◌≡◌, ℕ};
ghost use Rattle.std.specs.FinSet as sets;
ghost use Rattle.fy_cluster.specs.Execution.{history_of};
ghost use Rattle.fy_cluster.specs.History.{targets_of};

use fy_acts::Act;
use fy_cluster::ClusterState;
use fy_cluster::effects::target_of;
use fy_locality::ProcSet;

/// The processes that the act's target names in the cluster now; none where the act has no target.
pub fn named_by(cluster: &ClusterState, act: &Act) -> ProcSet
    ensures { (p : ℕ) → sets.contains result p
        ≡ targets_of cluster.now.setup (history_of cluster.now) act.now p }
{
    match target_of(act) {
        Some(target) => {
            let map = cluster.config().map();
            cluster
                .left()
                .intersection(&map.members(target.key, &target.value))
        }
        None => ProcSet::empty(),
    }
}

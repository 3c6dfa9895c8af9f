//! How much of the cluster may still be lost, as a guard's journal left it.
ghost use Rattle.std.specs.Prelude.{◌≡◌, ◌≢◌, ◌<◌, IfOk, IfErr, length};
ghost use Rattle.std.specs.Ptr.{null_ptr};
ghost use Rattle.fy_c.specs.Bearing.{IsBookNow, IsBorneBy, Bears, is_exact, is_exact_at};
ghost use Rattle.fy_c.specs.Statuses.{Answers};
ghost use Rattle.fy_c.specs.declared.bearing.FyBorne.{FyBorne};
ghost use Rattle.fy_c.specs.declared.status.Status.TheVariants.{Done};

use crate::handle::FyGuard;
use crate::numbers::bit;
use crate::placing::put;
use crate::sets::gone;
use crate::status::Status;
use fy_cluster::Cluster;
use fy_decide::{DeadBook, Loss};
use fy_locality::{Map, ProcSet};
use fy_policy::Policy;
use fy_tolerance::{LossesSoFar, Tolerance, book_of, laws, least_any, tolerances_of};
use std::alloc::{AllocError, Global};

/// How much may still be lost: any so many processes together, whichever they are.
#[repr(C)]
#[derive(Clone, Copy)]
pub struct FyBorne {
    /// So many may be emptied.
    pub emptied: u32,
    /// So many may be killed for good.
    pub gone: u32,
    /// 1 where no greater number may be emptied, and 0 where that isn't known.
    pub emptied_exact: u32,
    /// 1 where no greater number may be killed for good, and 0 where that isn't known.
    pub gone_exact: u32,
}

/// The dead book of a cluster: exactly its destroyed, and those left.
fn book_in(alloc: Global, cluster: &Cluster) -> Result<DeadBook, AllocError>
    ensures { IfOk result (IsBookNow cluster.now) }
{
    laws::nothing_is_dropped();
    cluster.survives();
    let config = cluster.config();
    let losses = LossesSoFar {
        destroyed: cluster.destroyed(),
        gone: gone(cluster),
        down: ProcSet::empty(),
    };
    match book_of(alloc, config.map(), config.policies(), &losses) {
        Ok(dead) => Ok(dead),
        // All processes of a configuration satisfy its policies, so only memory can lack.
        Err(_) => Err(AllocError),
    }
}

/// Whether a policy bears this number, and exactly.
fn is_exact_at(any: u32, one: &Tolerance) -> bool
    ensures { result ≡ is_exact_at any one.now }
{
    one.any == any && one.is_exact()
}

/// Whether some policy bears this number, and exactly.
fn is_exact(any: u32, tolerances: &[Tolerance]) -> bool
    ensures { result ≡ is_exact any tolerances.now }
{
    for one in tolerances {
        if is_exact_at(any, one) {
            return true;
        }
    }
    false
}

/// How many processes may be lost together, whichever they are, and 1 where that is exact.
fn borne_by(
    alloc: Global,
    dead: &DeadBook,
    map: &Map,
    policies: &[Policy],
    loss: Loss,
) -> Result<(u32, u32), AllocError>
    requires map { map.now ≡ dead.now.processes }
    requires policies { policies.now ≡ dead.now.policies }
    requires some { 0 < length policies.now }
    ensures { IfOk result (λ borne. IsBorneBy dead.now loss borne.0 borne.1) }
{
    let tolerances = tolerances_of(alloc, dead, map, policies, loss)?;
    let any = least_any(map.len(), &tolerances);
    Ok((any, bit(is_exact(any, &tolerances), 1)))
}

/// What may still be lost of a cluster.
///
/// # Errors
///
/// `NoMemory`.
fn borne_in(alloc: Global, cluster: &Cluster) -> Result<FyBorne, Status>
    ensures borne { IfOk result (λ borne. (old : FyBorne) → Bears cluster.now old borne Done) }
    ensures memory { IfErr result (λ status. (old : FyBorne) → Bears cluster.now old old status) }
{
    let dead = book_in(alloc, cluster)?;
    let config = cluster.config();
    config.invariant();
    let (map, policies) = (config.map(), config.policies());
    let (emptied, emptied_exact) = borne_by(alloc, &dead, map, policies, Loss::Emptied)?;
    let (gone, gone_exact) = borne_by(alloc, &dead, map, policies, Loss::Gone)?;
    Ok(FyBorne {
        emptied,
        gone,
        emptied_exact,
        gone_exact,
    })
}

/// Writes how many processes, whichever they are, may still be emptied together, and how many may
/// be killed for good, as the journal left the cluster; and whether each number is exact. Those
/// lost already count too. It enters nothing.
///
/// # Errors
///
/// `NoMemory`: nothing is written then.
#[unsafe(no_mangle)]
pub extern "C" fn fy_bears(alloc: Global, guard: &mut FyGuard, borne: &mut FyBorne) -> u32
    requires { guard.old.at ≢ null_ptr }
    ensures kept { guard.new.value ≡ guard.old.value }
    ensures place { guard.new.at ≡ guard.old.at }
    ensures borne { Answers result (Bears guard.old.value borne.old borne.new) }
{
    put(borne_in(alloc, guard.cluster()), borne)
}

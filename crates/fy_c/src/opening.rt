//! Guards opened and closed.
ghost use Rattle.std.specs.Prelude.{◌≡◌, ◌≢◌, IfOk, IfErr, OnOk};
ghost use Rattle.std.specs.Ptr.{null_ptr};
ghost use Rattle.fy_c.specs.Opening.{Begins, Copies, NotOpened, Opens, Resets};
ghost use Rattle.fy_c.specs.Statuses.{Answers};
ghost use Rattle.fy_c.specs.declared.handle.FyGuard.{FyGuard};
ghost use Rattle.fy_c.specs.declared.status.Status.TheVariants.{Done, NoMemory};

use crate::handle::{FyGuard, closed_up, opened_up};
use crate::placing::put;
use crate::status::Status;
use fy_cluster::Cluster;
use fy_config::read_config;
use std::alloc::Global;

/// The cluster that a cluster file begins. Memory was asked for then, so it can also be refused to
/// what follows.
///
/// # Errors
///
/// `NoMemory`, and the statuses for a cluster file that is refused.
pub(crate) fn begun(alloc: Global, config: &[u8]) -> Result<Cluster, Status>
    ensures begun { IfOk result (Begins config.now) }
    ensures refused { IfErr result (NotOpened config.now) }
    ensures asked { OnOk result (NotOpened config.now NoMemory) }
{
    let config = read_config(alloc, config)?;
    Ok(Cluster::make(alloc, config)?)
}

/// A guard of the cluster that a cluster file begins.
///
/// # Errors
///
/// `NoMemory`, and the statuses for a cluster file that is refused.
fn open(alloc: Global, config: &[u8]) -> Result<FyGuard, Status>
    ensures opened { IfOk result (λ guard. (old : FyGuard) → Opens config.now old guard Done) }
    ensures refused { IfErr result (λ status. (old : FyGuard) → Opens config.now old old status) }
{
    let cluster = begun(alloc, config)?;
    Ok(closed_up(Box::new(alloc, cluster)?))
}

/// Opens a guard of a cluster in which nothing happened yet. What the guard was before is
/// forgotten.
///
/// # Errors
///
/// `NoMemory`, and the statuses for a cluster file that is refused. The guard is then what it was.
#[unsafe(no_mangle)]
pub extern "C" fn fy_open(alloc: Global, config: &[u8], guard: &mut FyGuard) -> u32
    ensures { Answers result (Opens config.now guard.old guard.new) }
{
    put(open(alloc, config), guard)
}

/// Frees all that an open guard holds.
#[unsafe(no_mangle)]
pub extern "C" fn fy_close(alloc: Global, guard: FyGuard)
    requires { guard.at ≢ null_ptr }
{
    drop(opened_up(alloc, guard));
}

/// A cluster in which nothing happened yet, with what another began with.
///
/// # Errors
///
/// `NoMemory`.
fn fresh(alloc: Global, cluster: &Cluster) -> Result<Cluster, Status>
    ensures fresh { IfOk result (λ fresh. Resets cluster.now fresh Done) }
    ensures memory { IfErr result (Resets cluster.now cluster.now) }
{
    let config = cluster.config().try_copy(alloc)?;
    Ok(Cluster::make(alloc, config)?)
}

/// Puts an open guard back to where nothing happened yet, without its cluster file being read
/// again.
///
/// # Errors
///
/// `NoMemory`: nothing changed then.
#[unsafe(no_mangle)]
pub extern "C" fn fy_reset(alloc: Global, guard: &mut FyGuard) -> u32
    requires { guard.old.at ≢ null_ptr }
    ensures place { guard.new.at ≡ guard.old.at }
    ensures reset { Answers result (Resets guard.old.value guard.new.value) }
{
    let cluster = guard.cluster();
    put(fresh(alloc, cluster), cluster)
}

/// A guard of a cluster with the journal of another.
///
/// # Errors
///
/// `NoMemory`.
fn copied(alloc: Global, cluster: &Cluster) -> Result<FyGuard, Status>
    ensures copied { IfOk result (λ copy. (old : FyGuard) → Copies cluster.now old copy Done) }
    ensures memory { IfErr result (λ status. (old : FyGuard) → Copies cluster.now old old status) }
{
    let copy = cluster.try_copy(alloc)?;
    Ok(closed_up(Box::new(alloc, copy)?))
}

/// Opens a second guard with the journal of an open one, to look ahead. The state is copied, and no
/// act of the journal is made again. What the other guard was before is forgotten.
///
/// # Errors
///
/// `NoMemory`: the other guard is then what it was.
#[unsafe(no_mangle)]
pub extern "C" fn fy_try_copy(alloc: Global, guard: &mut FyGuard, other: &mut FyGuard) -> u32
    requires { guard.old.at ≢ null_ptr }
    ensures kept { guard.new.value ≡ guard.old.value }
    ensures place { guard.new.at ≡ guard.old.at }
    ensures copied { Answers result (Copies guard.old.value other.old other.new) }
{
    put(copied(alloc, guard.cluster()), other)
}

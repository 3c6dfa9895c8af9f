//! Which processes may still be killed, and how hard, each for itself.
ghost use Rattle.std.specs.Prelude.{◌≡◌, ◌≢◌, ◌≤◌, length};
ghost use Rattle.std.specs.Ptr.{null_ptr};
ghost use Rattle.fy_c.specs.Killable.{IsHardestOn, AreHardest, Killable};
ghost use Rattle.fy_c.specs.Statuses.{Answers};

use crate::handle::FyGuard;
use crate::killing::outcome_of;
use crate::killing_process::judge_process;
use crate::numbers::kind_number;
use crate::status::Status;
use fy_cluster::Cluster;
use fy_kinds::Kind;

/// The number of the hardest kind by which a kill of one process by an actor would strike now; 0
/// where none would.
fn hardest_on(cluster: &Cluster, actor: u32, process: u32) -> u8
    ensures { IsHardestOn cluster.now actor process result }
{
    let kind = kind_number(Kind::KillInstantly);
    let floor = kind_number(Kind::RebootProcess);
    let (_status, told) = outcome_of(judge_process(cluster, actor, process, kind, floor));
    told.struck as u8
}

/// Writes the kind of each process to the front of a buffer.
fn write_hardest(cluster: &Cluster, actor: u32, kinds: &mut [u8])
    requires { length cluster.now.setup.processes ≤ length kinds.old }
    ensures { AreHardest cluster.now actor (length cluster.now.setup.processes)
        kinds.old kinds.new }
{
    for p in 0..cluster.config().map().len() {
        kinds[p as usize] = hardest_on(cluster, actor, p);
    }
}

/// Writes the kind of each process where the actor is there, and the buffer has room.
fn killable(cluster: &Cluster, actor: u32, kinds: &mut [u8]) -> Status
    ensures { Killable cluster.now actor kinds.old kinds.new result }
{
    let config = cluster.config();
    if actor >= config.actors() {
        return Status::Refused;
    }
    if kinds.len() < config.map().len() as usize {
        return Status::Short;
    }
    write_hardest(cluster, actor, kinds);
    Status::Done
}

/// Writes to place p of the buffer the number of the kind by which a kill of process p alone would
/// strike now, ordered by this actor by `KillInstantly` with the floor `RebootProcess`; 0 where
/// none would strike. Each is for itself: once one is killed, fewer may be. How many processes
/// there are goes to `told`. It enters nothing, and doesn't allocate.
///
/// # Errors
///
/// In order: `Refused` where there is no actor with this number; `Short` where the buffer has fewer
/// places than there are processes. Nothing is written to the buffer then.
#[unsafe(no_mangle)]
pub extern "C" fn fy_killable(
    guard: &mut FyGuard,
    actor: u32,
    kinds: &mut [u8],
    told: &mut usize,
) -> u32
    requires { guard.old.at ≢ null_ptr }
    ensures kept { guard.new.value ≡ guard.old.value }
    ensures place { guard.new.at ≡ guard.old.at }
    ensures count { told.new ≡ length guard.old.value.setup.processes }
    ensures killable { Answers result (Killable guard.old.value actor kinds.old kinds.new) }
{
    let cluster = guard.cluster();
    *told = cluster.config().map().len() as usize;
    killable(cluster, actor, kinds).number()
}

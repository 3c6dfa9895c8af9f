//! Kills of one process, ordered by its number and answered by numbers.
ghost use Rattle.std.specs.Prelude.{◌≡◌, ◌≢◌, ◌≤◌, ℕ, Ok, IfOk, IfErr};
ghost use Rattle.std.specs.Ptr.{null_ptr};
ghost use Rattle.fy_kinds.specs.Kinds.{rank};
ghost use Rattle.fy_decide.specs.Verdicts.{NamesProcess};
ghost use Rattle.fy_acts.specs.declared.act.Act.TheVariants.{Kill};
ghost use Rattle.fy_c.specs.Entering.{Applies, status_of};
ghost use Rattle.fy_c.specs.Killing.{told_of, untold};
ghost use Rattle.fy_c.specs.KillingProcess.{IsOrderOn, AreKindsOn, NoOrderOn, KillsProcess, JudgesProcess};
ghost use Rattle.fy_c.specs.Statuses.{Answers};

use crate::handle::FyGuard;
use crate::killing::{kinds_of, tell};
use crate::status::Status;
use fy_acts::Reply;
use fy_cluster::{Cluster, Fault};
use fy_kinds::{KillOrder, Kind, Target};
use fy_locality::{Key, Map, ProcId};

/// The two kinds of an order on one process, by their numbers.
///
/// # Errors
///
/// In order: `Argument` where a number is that of no kind or of no process; `Floor` where the floor
/// is above the kind.
fn kinds_on(map: &Map, process: u32, kind: u32, floor: u32) -> Result<(Kind, Kind), Status>
    ensures given { IfOk result (λ kinds. (tear : ℕ) → AreKindsOn map.now
        (record { process = process; kind = kind; floor = floor; tear = tear }) kinds.0 kinds.1) }
    ensures ordered { IfOk result (λ kinds. rank kinds.1 ≤ rank kinds.0) }
    ensures none { IfErr result (λ status. (tear : ℕ) → NoOrderOn map.now
        (record { process = process; kind = kind; floor = floor; tear = tear }) status) }
{
    if process >= map.len() {
        return Err(Status::Argument);
    }
    kinds_of(kind, floor)
}

/// An order on one process, by its number and those of two kinds. It names the process by its name.
///
/// # Errors
///
/// In order: `Argument` where a number is that of no kind or of no process; `Floor` where the floor
/// is above the kind.
fn order_on(map: &Map, process: u32, kind: u32, floor: u32, tear: u64) -> Result<KillOrder, Status>
    ensures order { IfOk result (IsOrderOn map.now
        (record { process = process; kind = kind; floor = floor; tear = tear })) }
    ensures none { IfErr result (NoOrderOn map.now
        (record { process = process; kind = kind; floor = floor; tear = tear })) }
{
    let (kind, floor) = kinds_on(map, process, kind, floor)?;
    let Some(value) = map.value(ProcId(process), Key::Process) else {
        // Each process has a name.
        unreachable!();
    };
    let key = Key::Process;
    Ok(KillOrder::make(Target { key, value }, kind, floor, tear)?)
}

/// Applies a kill of one process by an actor to the cluster of an open guard. The order names the
/// process.
///
/// # Errors
///
/// In order: `JournalFull`, `NoMemory`. The cluster is then as it was.
// Inlined, a kill by number takes 6 ns less.
#[inline(always)]
pub(crate) fn apply_kill(
    guard: &mut FyGuard,
    by: u32,
    process: ProcId,
    order: &KillOrder,
) -> Result<Reply, Fault>
    requires open { guard.old.at ≢ null_ptr }
    requires named { NamesProcess guard.old.value.setup.processes process.0 order.now }
    ensures open { guard.new.at ≢ null_ptr }
    ensures applied { Applies guard.old.value guard.new.value by (Kill order.now) result }
{
    guard.cluster().kill_process(by, process, order)
}

/// Orders a kill of one process, and applies it where an order is given.
///
/// # Errors
///
/// As of `fy_kill_process`, but for `Refused`.
fn kill_process(
    guard: &mut FyGuard,
    actor: u32,
    process: u32,
    kind: u32,
    floor: u32,
    tear: u64,
) -> Result<Reply, Status>
    requires { guard.old.at ≢ null_ptr }
    ensures open { guard.new.at ≢ null_ptr }
    ensures replied { IfOk result (λ reply. KillsProcess guard.old.value guard.new.value actor
        (record { process = process; kind = kind; floor = floor; tear = tear })
        (told_of (Ok reply)) (status_of (Ok reply))) }
    ensures failed { IfErr result (KillsProcess guard.old.value guard.new.value actor
        (record { process = process; kind = kind; floor = floor; tear = tear }) untold) }
{
    let order = order_on(guard.cluster().config().map(), process, kind, floor, tear)?;
    Ok(apply_kill(guard, actor, ProcId(process), &order)?)
}

/// Does what `fy_kill` does with an order that names this process alone by its name, and makes the
/// same entry. No name is read or looked up. The three numbers are those of `fy_kill`.
///
/// # Errors
///
/// In order: `Argument` where a number is that of no kind or of no process; `Floor` where the floor
/// is above the kind; `JournalFull`; `NoMemory`: nothing changed then. `Refused` where there is no
/// actor with this number, and the act stands in the journal all the same.
#[unsafe(no_mangle)]
pub extern "C" fn fy_kill_process(
    guard: &mut FyGuard,
    actor: u32,
    process: u32,
    kind: u32,
    floor: u32,
    tear: u64,
    struck: &mut u32,
    rule: &mut u32,
    named: &mut u64,
) -> u32
    requires { guard.old.at ≢ null_ptr }
    ensures open { guard.new.at ≢ null_ptr }
    ensures killed { Answers result (KillsProcess guard.old.value guard.new.value actor
        (record { process = process; kind = kind; floor = floor; tear = tear })
        (record { struck = struck.new; rule = rule.new; named = named.new })) }
{
    let answer = kill_process(guard, actor, process, kind, floor, tear);
    tell(answer, struck, rule, named)
}

/// What a kill of one process by an actor would get now.
///
/// # Errors
///
/// As of `fy_judge_process`, but for `Refused`.
pub(crate) fn judge_process(
    cluster: &Cluster,
    actor: u32,
    process: u32,
    kind: u32,
    floor: u32,
) -> Result<Reply, Status>
    ensures replied { IfOk result (λ reply. JudgesProcess cluster.now actor
        (record { process = process; kind = kind; floor = floor; tear = 0 })
        (told_of (Ok reply)) (status_of (Ok reply))) }
    ensures none { IfErr result (JudgesProcess cluster.now actor
        (record { process = process; kind = kind; floor = floor; tear = 0 }) untold) }
{
    let (kind, floor) = kinds_on(cluster.config().map(), process, kind, floor)?;
    let Some(reply) = cluster.judge_process(actor, ProcId(process), kind, floor) else {
        // The number was found to be that of a process.
        unreachable!();
    };
    Ok(reply)
}

/// What `fy_kill_process` would answer now to the same order, if the journal had room. It enters
/// nothing, and doesn't allocate. The three numbers are those of `fy_kill`.
///
/// # Errors
///
/// In order: `Argument` where a number is that of no kind or of no process; `Floor` where the floor
/// is above the kind; `Refused` where there is no actor with this number.
#[unsafe(no_mangle)]
pub extern "C" fn fy_judge_process(
    guard: &mut FyGuard,
    actor: u32,
    process: u32,
    kind: u32,
    floor: u32,
    struck: &mut u32,
    rule: &mut u32,
    named: &mut u64,
) -> u32
    requires { guard.old.at ≢ null_ptr }
    ensures kept { guard.new.value ≡ guard.old.value }
    ensures place { guard.new.at ≡ guard.old.at }
    ensures judged { Answers result (JudgesProcess guard.old.value actor
        (record { process = process; kind = kind; floor = floor; tear = 0 })
        (record { struck = struck.new; rule = rule.new; named = named.new })) }
{
    let answer = judge_process(guard.cluster(), actor, process, kind, floor);
    tell(answer, struck, rule, named)
}

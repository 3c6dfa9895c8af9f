//! Messages delivered, lost and sent again, syncs, copies and time, by numbers.
ghost use Rattle.std.specs.Prelude.{◌≢◌};
ghost use Rattle.std.specs.Ptr.{null_ptr};
ghost use Rattle.fy_acts.specs.declared.act.Act.TheVariants.{Deliver, Lose, Resend, Sync, Tick, CopyTo};
ghost use Rattle.fy_c.specs.Making.{Makes};

use crate::handle::FyGuard;
use crate::making::{FyReply, make};
use fy_acts::Act;
use fy_locality::ProcId;

/// Delivers a message in flight. Whether it was an acknowledgement, and whether its record is
/// acknowledged now, go to the reply.
///
/// # Errors
///
/// `Refused`, and the act stands in the journal all the same; `JournalFull` and `NoMemory`, in this
/// order, where nothing changed.
#[unsafe(no_mangle)]
pub extern "C" fn fy_deliver(
    guard: &mut FyGuard,
    actor: u32,
    message: u64,
    reply: &mut FyReply,
) -> u32
    requires { guard.old.at ≢ null_ptr }
    ensures open { guard.new.at ≢ null_ptr }
    ensures made { Makes guard.old.value guard.new.value actor (Deliver message)
        result reply.new }
{
    make(guard, actor, Act::Deliver { message }, reply)
}

/// Loses a message in flight.
///
/// # Errors
///
/// As of `fy_deliver`.
#[unsafe(no_mangle)]
pub extern "C" fn fy_lose(guard: &mut FyGuard, actor: u32, message: u64, reply: &mut FyReply) -> u32
    requires { guard.old.at ≢ null_ptr }
    ensures open { guard.new.at ≢ null_ptr }
    ensures made { Makes guard.old.value guard.new.value actor (Lose message) result reply.new }
{
    make(guard, actor, Act::Lose { message }, reply)
}

/// Sends a record to a member of its team once more. The message's number goes to the reply.
///
/// # Errors
///
/// As of `fy_deliver`.
#[unsafe(no_mangle)]
pub extern "C" fn fy_resend(
    guard: &mut FyGuard,
    actor: u32,
    rec: u32,
    process: u32,
    reply: &mut FyReply,
) -> u32
    requires { guard.old.at ≢ null_ptr }
    ensures open { guard.new.at ≢ null_ptr }
    ensures made { Makes guard.old.value guard.new.value actor
        (Resend rec (record { 0 = process })) result reply.new }
{
    let process = ProcId(process);
    make(guard, actor, Act::Resend { rec, process }, reply)
}

/// Syncs what a process has written, and sends an acknowledgement of each write. How many writes,
/// and the number of the first message, go to the reply.
///
/// # Errors
///
/// As of `fy_deliver`.
#[unsafe(no_mangle)]
pub extern "C" fn fy_sync(guard: &mut FyGuard, actor: u32, process: u32, reply: &mut FyReply) -> u32
    requires { guard.old.at ≢ null_ptr }
    ensures open { guard.new.at ≢ null_ptr }
    ensures made { Makes guard.old.value guard.new.value actor (Sync (record { 0 = process }))
        result reply.new }
{
    let process = ProcId(process);
    make(guard, actor, Act::Sync { process }, reply)
}

/// Sends a record that one process has synced to another. The message's number goes to the reply.
///
/// # Errors
///
/// As of `fy_deliver`.
#[unsafe(no_mangle)]
pub extern "C" fn fy_copy(
    guard: &mut FyGuard,
    actor: u32,
    from: u32,
    rec: u32,
    to: u32,
    reply: &mut FyReply,
) -> u32
    requires { guard.old.at ≢ null_ptr }
    ensures open { guard.new.at ≢ null_ptr }
    ensures made { Makes guard.old.value guard.new.value actor
        (CopyTo (record { 0 = from }) rec (record { 0 = to })) result reply.new }
{
    let (from, to) = (ProcId(from), ProcId(to));
    make(guard, actor, Act::CopyTo { from, rec, to }, reply)
}

/// Lets time pass. The time then goes to the reply.
///
/// # Errors
///
/// As of `fy_deliver`.
#[unsafe(no_mangle)]
pub extern "C" fn fy_tick(guard: &mut FyGuard, actor: u32, ticks: u64, reply: &mut FyReply) -> u32
    requires { guard.old.at ≢ null_ptr }
    ensures open { guard.new.at ≢ null_ptr }
    ensures made { Makes guard.old.value guard.new.value actor (Tick ticks) result reply.new }
{
    make(guard, actor, Act::Tick { ticks }, reply)
}
